//! What is sent to a client that is let in.

ghost use Rattle.std.specs.Prelude.{◌≡◌, length, pos, MatchBool, MatchOption, IfErr, IfOk};
ghost use Rattle.krb_accept.specs.Kerberos.{HasLength};
ghost use Rattle.krb_accept.specs.Replies.{IsNoReply};
ghost use Rattle.krb_c_accept.specs.Replies.{IsAnswerTo, IsFramed, IsInFrame, IsMade, IsReplyTo, reply_error};
ghost use Rattle.krb_crypto.specs.BySuite.{key_octets_of};
ghost use Rattle.krb_crypto.specs.Suites.{etype};
ghost use Rattle.krb_crypto.specs.declared.cipher_suite.CipherSuite.{CipherSuite};
ghost use Rattle.krb_c_calls.specs.declared.call_error.CallError.TheVariants as refusals;

use crate::options::{SUBKEY, has_option};
use crate::own_subkey::{confounder_in, own_subkey};
use crate::parts::octets_of_key;
use crate::records::AcceptorRecord;
use krb_accept::{
    Accepted, Context, InnerToken, ReplyError, message_in, reply, reply_token, suite_of,
    wants_reply,
};
use krb_c_calls::CallError;
use krb_crypto::CipherSuite;
use krb_der::{DerEncode, IntegerAsn1};
use krb_enc_parts::data_types::EncApRepPart;
use krb_messages::messages::ApRep;
use krb_types::data_types::EncryptionKey;
use std::alloc::Global;

/// What is sent to a client, and the service's subkey in it.
#[derive(Drop)]
pub(crate) struct Reply {
    /// The octets of the subkey; none where there is none.
    pub own_subkey: Vec<u8>,
    /// The token or the message; none where the client waits for none.
    pub octets: Vec<u8>,
}

/// Whether octets are a frame around an AP-REQ.
fn is_framed(token: &[u8]) -> bool
    ensures { MatchBool result (IsFramed token.now) (IsFramed token.now → ⊥) }
{
    match message_in(InnerToken::ApReq, token) {
        Some(_) => true,
        None => false,
    }
}

/// Whether the AP-REP is in a frame: where the token is, but not in DCE style (flag 0x1000).
fn is_in_frame(token: &[u8], context: &Context) -> bool
    ensures { MatchBool result (IsInFrame token.now context.now.flags) (IsInFrame token.now context.now.flags → ⊥) }
{
    context.flags / 0x1000 % 2 == 0 && is_framed(token)
}

/// The suite of the session key.
fn suite_in(context: &Context) -> Option<CipherSuite>
    ensures { MatchOption result ((suite : CipherSuite) → context.now.accepted.ticket.key.key_type ≡ pos (etype suite) → ⊥)
        (λ suite. context.now.accepted.ticket.key.key_type ≡ pos (etype suite)) }
{
    suite_of(&context.accepted.ticket.key.key_type.0)
}

/// The AP-REP, in a frame or alone (RFC 4120, 3.2.4; RFC 4121, 4.1.2).
fn made(
    alloc: Global,
    in_frame: bool,
    accepted: &Accepted,
    confounder: &[u8],
    subkey: Option<EncryptionKey>,
    number: Option<IntegerAsn1>,
) -> Result<Vec<u8>, ReplyError>
    ensures made { IfOk result
        (λ octets. IsMade ⟦<EncApRepPart as DerEncode>⟧ ⟦<ApRep as DerEncode>⟧ in_frame accepted.now confounder.now subkey number octets.items) }
    ensures refused { IfErr result (IsNoReply accepted.now confounder.now) }
{
    if in_frame {
        reply_token(alloc, accepted, confounder, subkey, number)
    } else {
        reply(alloc, accepted, confounder, subkey, number)
    }
}

/// The status where no AP-REP is made.
fn reply_error(error: ReplyError) -> CallError
    ensures { result ≡ reply_error error }
{
    match error {
        ReplyError::OutOfMemory => CallError::Memory,
        ReplyError::Key | ReplyError::Confounder => CallError::Never,
    }
}

/// What is sent to a client that waits for an AP-REP.
fn answer_to(
    alloc: Global,
    acceptor: &AcceptorRecord,
    random: &[u8],
    suite: &CipherSuite,
    in_frame: bool,
    accepted: &Accepted,
) -> Result<Reply, CallError>
    requires random { length random.now ≡ 48 }
    requires of_suite { accepted.now.ticket.key.key_type ≡ pos (etype suite.now) }
    requires size { length accepted.now.ticket.key.key_value ≡ key_octets_of suite.now }
    ensures made { IfOk result
        (IsAnswerTo ⟦<EncApRepPart as DerEncode>⟧ ⟦<ApRep as DerEncode>⟧ acceptor.now random.now suite.now in_frame accepted.now) }
    ensures refused { IfErr result (λ e. e ≡ refusals.Memory) }
{
    let subkey = own_subkey(alloc, has_option(acceptor.options, SUBKEY), suite, random)?;
    let own_subkey = Vec::from_slice(alloc, octets_of_key(&subkey))?;
    let number = IntegerAsn1::from_u32(alloc, acceptor.sequence_number);
    let confounder = confounder_in(suite, random);
    match made(alloc, in_frame, accepted, confounder, subkey, Some(number)) {
        Ok(octets) => Ok(Reply { own_subkey, octets }),
        Err(error) => Err(reply_error(error)),
    }
}

/// What is sent to a client that is let in.
pub(crate) fn reply_to(
    alloc: Global,
    acceptor: &AcceptorRecord,
    random: &[u8],
    token: &[u8],
    context: &Context,
) -> Result<Reply, CallError>
    requires random { length random.now ≡ 48 }
    requires key { HasLength context.now.accepted.ticket.key }
    ensures made { IfOk result
        (IsReplyTo ⟦<EncApRepPart as DerEncode>⟧ ⟦<ApRep as DerEncode>⟧ acceptor.now random.now token.now context.now) }
    ensures refused { IfErr result (λ e. e ≡ refusals.Memory) }
{
    if wants_reply(&context.accepted, context.flags) {
        let Some(suite) = suite_in(context) else {
            return Err(CallError::Never);
        };
        let in_frame = is_in_frame(token, context);
        return answer_to(alloc, acceptor, random, &suite, in_frame, &context.accepted);
    }
    Ok(Reply {
        own_subkey: Vec::new(alloc),
        octets: Vec::new(alloc),
    })
}
