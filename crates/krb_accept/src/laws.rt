//! Laws of what this crate makes, and of the decision about tokens.

ghost use Rattle.std.specs.Prelude.{◌≡◌, ℕ, ℤ, ◌<ℤ◌, List, Some, None};
ghost use Rattle.std.specs.Option.{option_map};
ghost use Rattle.krb_accept.specs.Entries.{IsEntry, entry_octets};
ghost use Rattle.krb_accept.specs.Pac.{TakesPac};
ghost use Rattle.krb_accept.specs.PacPlaces.{NoPacOf};
ghost use Rattle.krb_accept.specs.TokenRuns.{IsTokenRun, TokenEvent};
ghost use Rattle.krb_accept.specs.Tokens.{IsTokenAccepted};
ghost use Rattle.krb_accept.specs.declared.settings.PacCheck.TheVariants as checks;
ghost use Rattle.krb_accept.specs.declared.settings.Settings.{Settings};
ghost use Rattle.krb_accept.specs.declared.token.Context.{Context};
ghost use Rattle.krb_accept_rules.specs.Accepted.{HasSameEntry};
ghost use Rattle.krb_accept_rules.specs.Remembering.{IsHistory, Step};
ghost use Rattle.krb_accept_rules.specs.declared.cache.Entry.{Entry};
ghost use Rattle.krb_accept_rules.specs.declared.key.ServiceKey.{ServiceKey};
ghost use Rattle.krb_accept_rules.specs.declared.terms.Arrival.{Arrival};
ghost use Rattle.krb_accept_rules.specs.declared.terms.Terms.{Terms};

use crate::kerberos::Kerberos;
use krb_accept_rules::Opening;
use krb_der::DerEncode;
use krb_enc_parts::data_types::EncKrbCredPart;
use krb_messages::messages::KrbCred;
use krb_types::data_types::AuthorizationData;

/// Entries of a replay cache are equal exactly where their octets are.
pub fn entries_apart()
    ensures { (e f : Entry) → IsEntry e → IsEntry f → entry_octets e ≡ entry_octets f → e ≡ f }
{}

/// A token is not let in twice: not with the cache that the first call left, nor after any further entries and any forgetting, as long as
/// the keys and the terms stay and nothing was forgotten at a later clock than that of the second call, whatever the settings are.
pub fn token_once()
    ensures { (keys session_keys : List ServiceKey) (terms : Terms) (first second : Arrival) (s z : Settings) (token : List ℕ) (steps : List Step)
        (seen after later last : List Entry) (c d : Context)
        → IsTokenAccepted ⟦<KrbCred as DerEncode>⟧ ⟦<EncKrbCredPart as DerEncode>⟧ ⟦<AuthorizationData as DerEncode>⟧ ⟦<Kerberos as Opening>⟧
        keys session_keys terms first s token seen after c → IsHistory terms.skew second.clock steps after later
        → IsTokenAccepted ⟦<KrbCred as DerEncode>⟧ ⟦<EncKrbCredPart as DerEncode>⟧ ⟦<AuthorizationData as DerEncode>⟧ ⟦<Kerberos as Opening>⟧
        keys session_keys terms second z token later last d → ⊥ }
{}

/// What was let in with a token is not let in again with any other: for the same server, the same client and the same time, under
/// whatever keys.
pub fn token_once_in_any_form()
    ensures { (keys session_keys others more : List ServiceKey) (terms other : Terms) (first second : Arrival) (s z : Settings) (token again : List ℕ)
        (steps : List Step) (seen after later last : List Entry) (c d : Context)
        → IsTokenAccepted ⟦<KrbCred as DerEncode>⟧ ⟦<EncKrbCredPart as DerEncode>⟧ ⟦<AuthorizationData as DerEncode>⟧ ⟦<Kerberos as Opening>⟧
        keys session_keys terms first s token seen after c → IsHistory terms.skew second.clock steps after later
        → other.skew ≡ terms.skew → HasSameEntry c.accepted d.accepted
        → IsTokenAccepted ⟦<KrbCred as DerEncode>⟧ ⟦<EncKrbCredPart as DerEncode>⟧ ⟦<AuthorizationData as DerEncode>⟧ ⟦<Kerberos as Opening>⟧
        others more other second z again later last d → ⊥ }
{}

/// A token is not let in twice over a service's run: between two calls with it any tokens may have come, under any settings, whatever was
/// answered, and old entries may have been forgotten, at no clock later than that of the second call.
pub fn token_never_again()
    ensures { (keys session_keys : List ServiceKey) (terms : Terms) (first second : Arrival) (s z : Settings) (token : List ℕ) (events : List TokenEvent)
        (seen after later last : List Entry) (c d : Context)
        → IsTokenAccepted ⟦<KrbCred as DerEncode>⟧ ⟦<EncKrbCredPart as DerEncode>⟧ ⟦<AuthorizationData as DerEncode>⟧ ⟦<Kerberos as Opening>⟧
        keys session_keys terms first s token seen after c
        → IsTokenRun ⟦<KrbCred as DerEncode>⟧ ⟦<EncKrbCredPart as DerEncode>⟧ ⟦<AuthorizationData as DerEncode>⟧ ⟦<Kerberos as Opening>⟧
        keys session_keys terms second.clock events after later
        → IsTokenAccepted ⟦<KrbCred as DerEncode>⟧ ⟦<EncKrbCredPart as DerEncode>⟧ ⟦<AuthorizationData as DerEncode>⟧ ⟦<Kerberos as Opening>⟧
        keys session_keys terms second z token later last d → ⊥ }
{}

/// A token that was let in before a new cache was whole is not let in with it, whatever it holds, if the terms say since when it is whole.
pub fn token_once_over_restarts()
    ensures { (keys session_keys : List ServiceKey) (terms other : Terms) (first second : Arrival) (s z : Settings) (since : ℤ) (token : List ℕ)
        (seen after later last : List Entry) (c d : Context)
        → IsTokenAccepted ⟦<KrbCred as DerEncode>⟧ ⟦<EncKrbCredPart as DerEncode>⟧ ⟦<AuthorizationData as DerEncode>⟧ ⟦<Kerberos as Opening>⟧
        keys session_keys terms first s token seen after c → other.skew ≡ terms.skew → other.whole_since ≡ Some since → first.clock <ℤ since
        → IsTokenAccepted ⟦<KrbCred as DerEncode>⟧ ⟦<EncKrbCredPart as DerEncode>⟧ ⟦<AuthorizationData as DerEncode>⟧ ⟦<Kerberos as Opening>⟧
        keys session_keys other second z token later last d → ⊥ }
{}

/// What is handed out as the PAC of a client that is let in are the octets over which the server checksum held, under the key that decrypted
/// the ticket, and they name its client. No other AD-WIN2K-PAC is handed out, and none at all where the settings ignore PACs.
pub fn pac_is_verified()
    ensures verified { (keys session_keys : List ServiceKey) (terms : Terms) (arrival : Arrival) (s : Settings) (token : List ℕ) (seen after : List Entry)
        (c : Context) (octets : List ℕ)
        → (p : IsTokenAccepted ⟦<KrbCred as DerEncode>⟧ ⟦<EncKrbCredPart as DerEncode>⟧ ⟦<AuthorizationData as DerEncode>⟧ ⟦<Kerberos as Opening>⟧
        keys session_keys terms arrival s token seen after c)
        → option_map (λ v. v.items) c.pac ≡ Some octets → TakesPac p.presented.presented.key.now.octets c.accepted.ticket octets }
    ensures no_other { (keys session_keys : List ServiceKey) (terms : Terms) (arrival : Arrival) (s : Settings) (token : List ℕ) (seen after : List Entry)
        (c : Context)
        → IsTokenAccepted ⟦<KrbCred as DerEncode>⟧ ⟦<EncKrbCredPart as DerEncode>⟧ ⟦<AuthorizationData as DerEncode>⟧ ⟦<Kerberos as Opening>⟧
        keys session_keys terms arrival s token seen after c
        → NoPacOf ⟦<AuthorizationData as DerEncode>⟧ c.accepted.ticket.authorization_data
        × NoPacOf ⟦<AuthorizationData as DerEncode>⟧ c.accepted.authorization_data }
    ensures ignored { (keys session_keys : List ServiceKey) (terms : Terms) (arrival : Arrival) (s : Settings) (token : List ℕ) (seen after : List Entry)
        (c : Context)
        → s.pac ≡ checks.Ignored
        → IsTokenAccepted ⟦<KrbCred as DerEncode>⟧ ⟦<EncKrbCredPart as DerEncode>⟧ ⟦<AuthorizationData as DerEncode>⟧ ⟦<Kerberos as Opening>⟧
        keys session_keys terms arrival s token seen after c
        → option_map (λ v. v.items) c.pac ≡ None }
{}
