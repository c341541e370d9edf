//! The reply to a client that was let in: an AP-REP (RFC 4120, 3.2.4 and 5.5.2).

ghost use Rattle.std.specs.Prelude.{◌≡◌, ◌≢◌, ⊤, pos, length, IfOk, IfErr, MatchOption, MatchResult};
ghost use Rattle.krb_accept.specs.Frame.{in_frame};
ghost use Rattle.krb_accept.specs.Replies.{IsNoReply, IsReply, IsReplyToken, message_of, part_of};
ghost use Rattle.krb_accept.specs.declared.frame.InnerToken.TheVariants.{ApRep};
ghost use Rattle.krb_accept.specs.declared.ap_rep.ReplyError.TheVariants as errors;
ghost use Rattle.krb_crypto_message.specs.Sealing.{IsTheOne};
ghost use Rattle.krb_crypto.specs.BySuite.{IsSealed, confounder_octets_of, key_octets_of};
ghost use Rattle.krb_crypto.specs.PreparedKeys.{IsPreparedFor};
ghost use Rattle.krb_crypto.specs.Suites.{etype};

use crate::frame::{InnerToken, token_of};
use crate::opening::octets_of;
use krb_accept_rules::Accepted;
use krb_crypto::prepared::SealingKey;
use krb_crypto::seal::prepared::seal_part;
use krb_crypto::{Cipher, CipherSuite};
use krb_der::{
    ApplicationTag, Der, DerEncode, IntegerAsn1, OctetStringAsn1, Optional, copy, encoding,
};
use krb_enc_parts::data_types::{EncApRepPart, EncApRepPartInner};
use krb_messages::messages::{ApRep, ApRepInner};
use krb_registry::key_usages::AP_REP_ENC;
use krb_registry::types::AP_REP_MSG_TYPE;
use krb_types::data_types::{EncryptedData, EncryptionKey, KerberosTime, Microseconds};
use std::alloc::{AllocError, Global};
use std::fmt;

/// Why no AP-REP is made.
#[derive(Clone, Copy, PartialEq, Eq)]
pub enum ReplyError {
    /// The session key is of no suite, or has not as many octets as the suite's keys.
    Key,
    /// The confounder has not as many octets as the suite's.
    Confounder,
    /// An allocation failed.
    OutOfMemory,
}

impl fmt::Display for ReplyError {
    fn fmt<W: fmt::Write>(&self, f: &mut fmt::Formatter<W>) -> fmt::Result {
        f.write_str(match self {
            ReplyError::Key => "the session key is not of a suite that is supported",
            ReplyError::Confounder => "the confounder has not the suite's length",
            ReplyError::OutOfMemory => "an allocation failed",
        })
    }
}

impl From<AllocError> for ReplyError {
    ghost from_gives = { λ _ e. e ≡ errors.OutOfMemory };

    fn from(_error: AllocError) -> ReplyError {
        ReplyError::OutOfMemory
    }
}

/// A copy of a value.
fn copy_of<T: Der + Drop>(alloc: Global, value: &T) -> Result<T, ReplyError>
    ensures { MatchResult result (λ v. v ≡ value.now) (λ e. e ≡ errors.OutOfMemory) }
{
    match copy(alloc, value) {
        Ok(value) => Ok(value),
        Err(_error) => Err(ReplyError::OutOfMemory),
    }
}

/// The client's time, and its microseconds.
fn times_of(alloc: Global, accepted: &Accepted) -> Result<(KerberosTime, Microseconds), ReplyError>
    ensures { MatchResult result (λ r. (r.0 ≡ accepted.now.ctime) × (r.1 ≡ accepted.now.cusec)) (λ e. e ≡ errors.OutOfMemory) }
{
    let ctime = copy_of(alloc, &accepted.ctime)?;
    let cusec = copy_of(alloc, &accepted.cusec)?;
    Ok((ctime, cusec))
}

/// The part that is encrypted: the client's time, and what the service chose.
fn part_of(
    alloc: Global,
    accepted: &Accepted,
    subkey: Option<EncryptionKey>,
    sequence_number: Option<IntegerAsn1>,
) -> Result<EncApRepPart, ReplyError>
    ensures { MatchResult result (λ part. part ≡ part_of accepted.now subkey sequence_number) (λ e. e ≡ errors.OutOfMemory) }
{
    match times_of(alloc, accepted) {
        Ok((ctime, cusec)) => Ok(ApplicationTag(EncApRepPartInner {
            ctime: ctime.into(),
            cusec: cusec.into(),
            subkey: Optional(match subkey {
                Some(subkey) => Some(subkey.into()),
                None => None,
            }),
            seq_number: Optional(match sequence_number {
                Some(number) => Some(number.into()),
                None => None,
            }),
        })),
        Err(error) => {
            drop(subkey);
            drop(sequence_number);
            Err(error)
        }
    }
}

/// The message around the encrypted part.
fn message_of(alloc: Global, suite: &CipherSuite, cipher: Vec<u8>) -> ApRep
    ensures { result ≡ message_of (pos (etype suite.now)) cipher.items }
{
    let enc_part = EncryptedData {
        etype: IntegerAsn1::from_u32(alloc, u32::from(suite)).into(),
        kvno: Optional(None),
        cipher: OctetStringAsn1(cipher).into(),
    };
    ApplicationTag(ApRepInner {
        pvno: IntegerAsn1::from_u32(alloc, 5).into(),
        msg_type: IntegerAsn1::from_u32(alloc, u32::from(AP_REP_MSG_TYPE)).into(),
        enc_part: enc_part.into(),
    })
}

/// The key, prepared for key usage 12, where its length is the suite's.
fn prepared_for(suite: &CipherSuite, key: &[u8]) -> Option<SealingKey>
    ensures none { MatchOption result (length key.now ≢ key_octets_of suite.now) (λ k. k.suite ≡ suite.now) }
    ensures some { MatchOption result ⊤ (IsPreparedFor key.now (pos 12)) }
{
    match SealingKey::new(suite, key, AP_REP_ENC) {
        Ok(prepared) => Some(prepared),
        Err(_error) => None,
    }
}

/// What the suite makes of the encoding of a value, for key usage 12.
fn sealed<T: Der>(
    alloc: Global,
    suite: &CipherSuite,
    key: &[u8],
    confounder: &[u8],
    value: &T,
) -> Result<Vec<u8>, ReplyError>
    requires { length confounder.now ≡ confounder_octets_of suite.now }
    ensures sealed { IfOk result (λ octets. IsTheOne (IsSealed suite.now key.now (pos 12) confounder.now (⟦<T as DerEncode>⟧.enc value.now)) octets.items) }
    ensures rejected { IfErr result (λ e. e ≡ errors.Key → length key.now ≢ key_octets_of suite.now) }
    ensures others { IfErr result (λ e. e ≡ errors.Confounder → ⊥) }
{
    let Some(prepared) = prepared_for(suite, key) else {
        return Err(ReplyError::Key);
    };
    match seal_part(alloc, &prepared, confounder, value) {
        Ok(octets) => Ok(octets),
        Err(_error) => Err(ReplyError::OutOfMemory),
    }
}

/// The encoding of the AP-REP for a client that was let in, with the subkey and the number of the first message that the service chose (RFC
/// 4120, 3.2.4), as it is sent where no frame is around it. Its part is encrypted under the session key, for key usage 12 and this
/// confounder, which has the length of the session key's suite: 8 octets for triple DES, else 16. It is for one use, and random.
///
/// `Key` where the session key is of no suite, `Confounder` where the confounder has not as many octets as the suite's, `Key` where the
/// session key has not.
pub fn reply(
    alloc: Global,
    accepted: &Accepted,
    confounder: &[u8],
    subkey: Option<EncryptionKey>,
    sequence_number: Option<IntegerAsn1>,
) -> Result<Vec<u8>, ReplyError>
    ensures made { IfOk result
        (λ octets. IsReply ⟦<EncApRepPart as DerEncode>⟧ ⟦<ApRep as DerEncode>⟧ accepted.now confounder.now subkey sequence_number octets.items) }
    ensures rejected { IfErr result (IsNoReply accepted.now confounder.now) }
{
    let key = &accepted.ticket.key;
    let Some(suite) = CipherSuite::of_number(&key.key_type.0) else {
        return Err(ReplyError::Key);
    };
    if confounder.len() != suite.confounder_size() {
        return Err(ReplyError::Confounder);
    }
    let part = part_of(alloc, accepted, subkey, sequence_number)?;
    let octets = octets_of(&key.key_value.0);
    let cipher = sealed(alloc, &suite, octets, confounder, &part)?;
    let message = message_of(alloc, &suite, cipher);
    let written = encoding(alloc, &message)?;
    Ok(written)
}

/// The token around an AP-REP (RFC 4121, 4.1.2; token id 02 00): what a service sends to a client whose token has the flag of mutual
/// authentication (2), and not that of DCE style (0x1000). The parameters and the errors are those of `reply`.
pub fn reply_token(
    alloc: Global,
    accepted: &Accepted,
    confounder: &[u8],
    subkey: Option<EncryptionKey>,
    sequence_number: Option<IntegerAsn1>,
) -> Result<Vec<u8>, ReplyError>
    ensures made { IfOk result
        (λ token. IsReplyToken ⟦<EncApRepPart as DerEncode>⟧ ⟦<ApRep as DerEncode>⟧ accepted.now confounder.now subkey sequence_number token.items) }
    ensures rejected { IfErr result (IsNoReply accepted.now confounder.now) }
{
    let message = reply(alloc, accepted, confounder, subkey, sequence_number)?;
    let token = token_of(alloc, InnerToken::ApRep, &message)?;
    Ok(token)
}
