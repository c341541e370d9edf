//! The keys of a context's per-message tokens (RFC 4121, 2).

ghost use Rattle.std.specs.Prelude.{◌≡◌, MatchOption};
ghost use Rattle.std.specs.Option.{is_some, option_copied};
ghost use Rattle.krb_accept.specs.ContextKey.{HasNoTokenKey, IsTokenKeyOf, context_key};

use crate::opening::octets_of;
use krb_accept_rules::Accepted;
use krb_crypto::CipherSuite;
use krb_gss_per_message::{Sender, TokenKey};
use krb_types::data_types::EncryptionKey;

/// The key of a context: the subkey of the service's AP-REP, where there is one; else that of the client's authenticator; else the session key.
fn context_key<'a>(accepted: &'a Accepted, subkey: Option<&'a EncryptionKey>) -> &'a EncryptionKey
    ensures { result.now ≡ context_key accepted.now (option_copied subkey.entry) }
{
    if let Some(key) = subkey {
        return key;
    }
    match &accepted.subkey {
        Some(key) => key,
        None => &accepted.ticket.key,
    }
}

/// The key of the per-message tokens that one side of a context sends (RFC 4121, 2 and 4.2.2): the subkey that the service asserted in its
/// AP-REP, where there is one, with the flag AcceptorSubkey; else the subkey of the client's authenticator; else the session key. A service
/// makes its own tokens with `Sender::Acceptor`, and verifies those that come with `Sender::Initiator`.
///
/// `None` where the key is of no suite of AES (tokens under triple DES are those of RFC 1964), or has not as many octets as the suite's keys.
pub fn token_key<'a>(
    accepted: &'a Accepted,
    subkey: Option<&'a EncryptionKey>,
    sender: Sender,
) -> Option<TokenKey<'a>>
    ensures { MatchOption result (HasNoTokenKey (context_key accepted.now (option_copied subkey.entry)))
        (IsTokenKeyOf (context_key accepted.now (option_copied subkey.entry)) sender (is_some subkey.entry)) }
{
    let key = context_key(accepted, subkey);
    let Some(suite) = CipherSuite::of_number(&key.key_type.0) else {
        return None;
    };
    match TokenKey::new(suite, octets_of(&key.key_value.0), sender, subkey.is_some()) {
        Ok(key) => Some(key),
        Err(_error) => None,
    }
}
