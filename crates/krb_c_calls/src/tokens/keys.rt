//! The key of a token, as C names it.

ghost use Rattle.std.specs.Prelude.{◌≡◌, MatchResult};
ghost use Rattle.krb_c_calls.specs.TokenKeys.{IsKeyOf, RefusesKey, sender_of};
ghost use Rattle.krb_c_calls.specs.Statuses.{refusal_status};

use crate::call_error::CallError;
use crate::suites::cipher_suite_of;
use krb_gss_per_message::{Sender, TokenKey};

fn sender(sent_by_acceptor: bool) -> Sender
    ensures { result ≡ sender_of sent_by_acceptor }
{
    if sent_by_acceptor {
        Sender::Acceptor
    } else {
        Sender::Initiator
    }
}

/// The key of the suite of this number. `Number` for a number of no suite, and for triple DES; else `KeySize`.
pub(crate) fn token_key(
    etype: i32,
    octets: &[u8],
    sent_by_acceptor: bool,
    acceptor_subkey: bool,
) -> Result<TokenKey<'_>, CallError>
    ensures { MatchResult result
        (λ key. IsKeyOf etype octets.now sent_by_acceptor acceptor_subkey key)
        (λ e. RefusesKey etype octets.now (refusal_status e)) }
{
    let suite = cipher_suite_of(etype)?;
    let sender = sender(sent_by_acceptor);
    Ok(TokenKey::new(suite, octets, sender, acceptor_subkey)?)
}
