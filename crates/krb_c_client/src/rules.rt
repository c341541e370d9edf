//! The rules by the numbers of `krb.h`; of an allocation failure there is none.

ghost use Rattle.std.specs.Prelude.{◌≡◌};
ghost use Rattle.krb_c_client.specs.Refusals.{client_refusal, rename_refusal, reply_refusal, request_refusal};
ghost use Rattle.krb_c_client.specs.Rules.{client_rule, code_of, hint_rule, message_rule, mismatch_rule, opening_rule, password_rule, rename_rule, reply_rule, request_rule};

use crate::refusal::{Refusal, refusal_of};
use krb_client::{
    ClientError, HintError, Mismatch, PasswordError, RenameError, ReplyError, RequestError,
};
use krb_crypto::KerberosCryptoError;
use krb_crypto::seal::PartError;
use krb_der::Asn1DerError;

/// The octets are no encoding of the message.
fn message_rule(error: &Asn1DerError) -> Option<u32>
    ensures { result ≡ message_rule error.now }
{
    match error {
        Asn1DerError::OutOfMemory => None,
        _ => Some(2),
    }
}

/// The part does not open.
fn opening_rule(error: &PartError) -> Option<u32>
    ensures { result ≡ opening_rule error.now }
{
    match error {
        PartError::Crypto(KerberosCryptoError::OutOfMemory) => None,
        PartError::Der(Asn1DerError::OutOfMemory) => None,
        _ => Some(5),
    }
}

/// The reply does not answer what was asked.
fn mismatch_rule(rule: Mismatch) -> u32
    ensures { result ≡ mismatch_rule rule }
{
    match rule {
        Mismatch::Client => 6,
        Mismatch::TicketVersion => 7,
        Mismatch::Ticket => 8,
        Mismatch::Unasked => 9,
        Mismatch::EncryptionType => 10,
        Mismatch::Nonce => 11,
        Mismatch::Server => 12,
        Mismatch::SessionKey => 13,
        Mismatch::SessionKeySize => 40,
        Mismatch::FlagsSize => 41,
        Mismatch::Start => 14,
        Mismatch::End => 15,
        Mismatch::RenewTill => 16,
        Mismatch::Flags => 17,
        Mismatch::Addresses => 18,
        Mismatch::Time => 19,
    }
}

/// The rule that a reply breaks.
fn reply_rule(error: &ReplyError) -> Option<u32>
    ensures { result ≡ reply_rule error.now }
{
    match error {
        ReplyError::Message(error) => message_rule(error),
        ReplyError::Pvno => Some(3),
        ReplyError::MsgType => Some(4),
        ReplyError::Opening(error) => opening_rule(error),
        ReplyError::Mismatch(rule) => Some(mismatch_rule(*rule)),
    }
}

/// The password gives no key.
fn password_rule(error: PasswordError) -> Option<u32>
    ensures { result ≡ password_rule error }
{
    match error {
        PasswordError::Suite => Some(25),
        PasswordError::Parameters => Some(26),
        PasswordError::Iterations(_) => Some(27),
        PasswordError::OutOfMemory => None,
    }
}

/// There is no key for what the KDC tells.
fn hint_rule(error: HintError) -> Option<u32>
    ensures { result ≡ hint_rule error }
{
    match error {
        HintError::MethodData => Some(20),
        HintError::NoInfo => Some(21),
        HintError::Info => Some(22),
        HintError::EncryptionType => Some(23),
        HintError::NoKey => Some(24),
        HintError::Password(error) => password_rule(error),
        HintError::OutOfMemory => None,
    }
}

/// There is no such request.
fn request_rule(error: RequestError) -> Option<u32>
    ensures { result ≡ request_rule error }
{
    match error {
        RequestError::Nonce => Some(29),
        RequestError::OptionNumber => Some(30),
        RequestError::Microseconds => Some(31),
        RequestError::Time => Some(32),
        RequestError::Delegation => Some(33),
        RequestError::Subkey => Some(34),
        RequestError::Confounder => Some(35),
        RequestError::Key => Some(36),
        RequestError::OutOfMemory => None,
    }
}

/// The rule by which an exchange goes no further.
fn client_rule(error: &ClientError) -> Option<u32>
    ensures { result ≡ client_rule error.now }
{
    match error {
        ClientError::OtherMessage => Some(1),
        ClientError::Reply(error) => reply_rule(error),
        ClientError::Key(error) => hint_rule(*error),
        ClientError::Request(error) => request_rule(*error),
        ClientError::Kdc(_) => Some(28),
    }
}

/// The code of the KDC's error; 0 of another one.
fn code_of(error: &ClientError) -> u32
    ensures { result ≡ code_of error.now }
{
    match error {
        ClientError::Kdc(code) => *code,
        _ => 0,
    }
}

/// The rule by which a reply renames nothing.
fn rename_rule(error: &RenameError) -> Option<u32>
    ensures { result ≡ rename_rule error.now }
{
    match error {
        RenameError::NoKey => Some(37),
        RenameError::Reply(error) => reply_rule(error),
        RenameError::Absent => Some(38),
        RenameError::Checksum => Some(39),
        RenameError::OutOfMemory => None,
    }
}

/// Why a reply renames nothing.
pub(crate) fn rename_refusal(error: &RenameError) -> Refusal
    ensures { result ≡ rename_refusal error.now }
{
    refusal_of(rename_rule(error), 0)
}

/// Why an exchange goes no further.
pub(crate) fn client_refusal(error: &ClientError) -> Refusal
    ensures { result ≡ client_refusal error.now }
{
    refusal_of(client_rule(error), code_of(error))
}

/// Why there is no request.
pub(crate) fn request_refusal(error: RequestError) -> Refusal
    ensures { result ≡ request_refusal error }
{
    refusal_of(request_rule(error), 0)
}

/// Why a reply confirms nothing.
pub(crate) fn reply_refusal(error: &ReplyError) -> Refusal
    ensures { result ≡ reply_refusal error.now }
{
    refusal_of(reply_rule(error), 0)
}
