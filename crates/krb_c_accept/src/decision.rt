//! Whether a client is let in, with a cache that is empty: that the cache does not have the entry, the caller sees to.

ghost use Rattle.std.specs.Prelude.{◌≡◌, [], IfErr, IfOk, OnOk};
ghost use Rattle.krb_accept.specs.Entries.{entry_octets};
ghost use Rattle.krb_accept.specs.Tokens.{IsContextOf, IsTokenNotAdmitted};
ghost use Rattle.krb_accept_rules.specs.Times.{IsOfWhole};
ghost use Rattle.krb_c_accept.specs.Decision.{IsLetIn, IsTurnedAway};

use crate::prepared::Prepared;
use krb_accept::{
    Context, Kerberos, PresentedToken, ReplayCache, Terms, TokenRefusal, admit_token, entry_octets,
    present_token,
};
use krb_accept_rules::Opening;
use krb_der::DerEncode;
use krb_enc_parts::data_types::EncKrbCredPart;
use krb_messages::messages::KrbCred;
use krb_types::data_types::AuthorizationData;
use std::alloc::Global;

/// A client that is let in, if the caller's cache does not have the entry.
#[derive(Drop)]
pub(crate) struct LetIn {
    /// The octets of the entry.
    pub entry: Vec<u8>,
    /// The client.
    pub context: Context,
}

/// What was presented, where an empty cache would have had it, had it been accepted before.
fn admitted(alloc: Global, terms: &Terms, presented: PresentedToken) -> Result<LetIn, TokenRefusal>
    ensures entry { IfOk result (λ l. l.entry.items ≡ entry_octets presented.entry.presented.entry) }
    ensures told { IfOk result (λ l. IsContextOf presented.entry l.context) }
    ensures whole { OnOk result (IsOfWhole terms.now.whole_since terms.now.skew presented.entry.presented.entry.seconds) }
    ensures refused { IfErr result (IsTokenNotAdmitted terms.now presented.entry.presented.entry []) }
{
    let entry = match entry_octets(alloc, &presented.presented.entry) {
        Ok(entry) => entry,
        Err(error) => {
            drop(presented);
            return Err(TokenRefusal::from(error));
        }
    };
    let mut cache = ReplayCache::new(alloc);
    let context = admit_token(terms, presented, &mut cache)?;
    Ok(LetIn { entry, context })
}

/// Whether the client that sent a token is let in, if the caller's cache does not have the entry.
pub(crate) fn judged(
    alloc: Global,
    prepared: &Prepared,
    token: &[u8],
) -> Result<LetIn, TokenRefusal>
    ensures let_in { IfOk result
        (IsLetIn ⟦<KrbCred as DerEncode>⟧ ⟦<EncKrbCredPart as DerEncode>⟧ ⟦<AuthorizationData as DerEncode>⟧ ⟦<Kerberos as Opening>⟧
        prepared.now token.now) }
    ensures refused { IfErr result
        (IsTurnedAway ⟦<KrbCred as DerEncode>⟧ ⟦<EncKrbCredPart as DerEncode>⟧ ⟦<AuthorizationData as DerEncode>⟧ ⟦<Kerberos as Opening>⟧
        prepared.now token.now) }
{
    let presented = present_token(
        alloc,
        &prepared.keys,
        &prepared.session_keys,
        &prepared.terms,
        &prepared.arrival,
        &prepared.settings,
        token,
    )?;
    let let_in = admitted(alloc, &prepared.terms, presented)?;
    Ok(let_in)
}
