//! Laws of the cache and of the decision.

ghost use Rattle.std.specs.Prelude.{◌≡◌, ◌⊎◌, ℕ, ℤ, pos, ◌+ℤ◌, ◌≤ℤ◌, ◌<ℤ◌, Some, List};
ghost use Rattle.krb_types.specs.Times.{unix_seconds};
ghost use Rattle.krb_accept_rules.specs.Accepted.{HasSameEntry};
ghost use Rattle.krb_accept_rules.specs.Accepting.{IsAccepted, IsRefused};
ghost use Rattle.krb_accept_rules.specs.AuthenticatorRules.{AuthenticatorRule, value_order};
ghost use Rattle.krb_accept_rules.specs.FirstFault.{BreaksFirst, Keeps};
ghost use Rattle.krb_accept_rules.specs.Names.{IsAmong};
ghost use Rattle.krb_accept_rules.specs.Refusals.{plain};
ghost use Rattle.krb_accept_rules.specs.Remembering.{IsHistory, IsKept, Step, records};
ghost use Rattle.krb_accept_rules.specs.RequestRules.{RequestRule, request_order};
ghost use Rattle.krb_accept_rules.specs.Runs.{Event, IsRun};
ghost use Rattle.krb_accept_rules.specs.SessionRules.{SessionRule, session_order};
ghost use Rattle.krb_accept_rules.specs.TicketTimes.{end_of, start_of};
ghost use Rattle.krb_accept_rules.specs.Times.{IsWithin};
ghost use Rattle.krb_accept_rules.specs.declared.accepted.Accepted.{Accepted};
ghost use Rattle.krb_accept_rules.specs.declared.cache.Entry.{Entry};
ghost use Rattle.krb_accept_rules.specs.declared.key.ServiceKey.{ServiceKey};
ghost use Rattle.krb_accept_rules.specs.declared.refusal.Refusal.{Refusal};
ghost use Rattle.krb_accept_rules.specs.declared.fields.AuthenticatorFields.{AuthenticatorFields};
ghost use Rattle.krb_accept_rules.specs.declared.fields.RequestFields.{RequestFields};
ghost use Rattle.krb_accept_rules.specs.declared.fields.TicketFields.{TicketFields};
ghost use Rattle.krb_accept_rules.specs.declared.refusal.Rule.{Rule};
ghost use Rattle.krb_accept_rules.specs.declared.refusal.Rule.TheVariants as Rules;
ghost use Rattle.krb_accept_rules.specs.declared.terms.Arrival.{Arrival};
ghost use Rattle.krb_accept_rules.specs.declared.terms.Terms.{Terms};

use crate::opening::Opening;

/// What was recorded stays, through any further entries and any forgetting, as long as the clock
/// does not go back behind it and no more than the skew has passed since its time. Nothing comes
/// into the cache but by being recorded.
pub fn remembering()
    ensures stays { (skew : ℕ) (later : ℤ) (steps : List Step) (seen after : List Entry) (e : Entry)
        → IsHistory skew later steps seen after → IsAmong seen e → IsKept later skew e → IsAmong after e }
    ensures recorded { (skew : ℕ) (later : ℤ) (steps : List Step) (seen after : List Entry) (e : Entry)
        → IsHistory skew later steps seen after → IsAmong after e → IsAmong seen e ⊎ IsAmong steps (records e) }
{}

/// The same octets are not let in twice: not with the cache that the first call left, nor after any
/// further entries and any forgetting, as long as the keys and the terms stay and nothing was
/// forgotten at a later clock than that of the second call. From the same address, while the clock
/// is within the skew of the client's time and the ticket is valid, they are refused as a repeat.
pub fn once<O: Opening>()
    ensures never { (keys session_keys : List ServiceKey) (terms : Terms) (first second : Arrival) (octets : List ℕ) (steps : List Step)
        (seen after later last : List Entry) (a b : Accepted)
        → IsAccepted ⟦<O as Opening>⟧ keys session_keys terms first octets seen after a → IsHistory terms.skew second.clock steps after later
        → IsAccepted ⟦<O as Opening>⟧ keys session_keys terms second octets later last b → ⊥ }
    ensures repeat { (keys session_keys : List ServiceKey) (terms : Terms) (first second : Arrival) (octets : List ℕ)
        (seen after later : List Entry) (a : Accepted) (e : Refusal)
        → IsAccepted ⟦<O as Opening>⟧ keys session_keys terms first octets seen after a
        → first.address ≡ second.address → IsWithin second.clock terms.skew (unix_seconds a.ctime)
        → start_of a.ticket ≤ℤ (second.clock +ℤ pos terms.skew) → second.clock ≤ℤ (end_of a.ticket +ℤ pos terms.skew)
        → IsRefused ⟦<O as Opening>⟧ keys session_keys terms second octets later e → (e ≡ plain Rules.OutOfMemory) ⊎ (e ≡ plain Rules.Repeat) }
{}

/// What was accepted is not accepted again in any other form: an authenticator for the same server,
/// of the same client and of the same time is not, with whatever keys it and its ticket are sealed
/// anew, and whatever else it holds.
pub fn once_in_any_form<O: Opening>()
    ensures { (keys session_keys others more : List ServiceKey) (terms other : Terms) (first second : Arrival) (octets again : List ℕ) (steps : List Step)
        (seen after later last : List Entry) (a b : Accepted)
        → IsAccepted ⟦<O as Opening>⟧ keys session_keys terms first octets seen after a → IsHistory terms.skew second.clock steps after later
        → other.skew ≡ terms.skew → HasSameEntry a b
        → IsAccepted ⟦<O as Opening>⟧ others more other second again later last b → ⊥ }
{}

/// What was accepted before the cache was whole is not let in with a cache that is whole since a
/// later time, whatever it holds: so a service that lost its cache lets nothing in twice, if it
/// says since when the new one is whole.
pub fn once_over_restarts<O: Opening>()
    ensures { (keys session_keys : List ServiceKey) (terms other : Terms) (first second : Arrival) (since : ℤ) (octets : List ℕ)
        (seen after later last : List Entry) (a b : Accepted)
        → IsAccepted ⟦<O as Opening>⟧ keys session_keys terms first octets seen after a
        → other.skew ≡ terms.skew → other.whole_since ≡ Some since → first.clock <ℤ since
        → IsAccepted ⟦<O as Opening>⟧ keys session_keys other second octets later last b → ⊥ }
{}

/// There is one answer: what is let in is not refused but for memory, and told as one.
pub fn one_answer<O: Opening>()
    ensures { (keys session_keys : List ServiceKey) (terms : Terms) (arrival : Arrival) (octets : List ℕ) (seen after last : List Entry) (a : Accepted)
        → IsAccepted ⟦<O as Opening>⟧ keys session_keys terms arrival octets seen after a
        → ((e : Refusal) → IsRefused ⟦<O as Opening>⟧ keys session_keys terms arrival octets seen e → e ≡ plain Rules.OutOfMemory)
        × ((b : Accepted) → IsAccepted ⟦<O as Opening>⟧ keys session_keys terms arrival octets seen last b → a ≡ b) }
{}

/// Of values that were read and opened there is one judgement: where all rules hold, none is the
/// first that is broken, and no two are. So `check_request`, `check_session` and `judge` answer `Ok`
/// exactly if all of their rules hold, and a rule exactly if it is the first that is broken.
pub fn one_judgement<O: Opening>()
    ensures request { (terms : Terms) (keys session_keys : List ServiceKey) (r : RequestFields) (broken : Rule)
        → Keeps (RequestRule ⟦<O as Opening>⟧ terms keys session_keys r) request_order
        → BreaksFirst (RequestRule ⟦<O as Opening>⟧ terms keys session_keys r) request_order broken → ⊥ }
    ensures request_rule { (terms : Terms) (keys session_keys : List ServiceKey) (r : RequestFields) (one other : Rule)
        → BreaksFirst (RequestRule ⟦<O as Opening>⟧ terms keys session_keys r) request_order one
        → BreaksFirst (RequestRule ⟦<O as Opening>⟧ terms keys session_keys r) request_order other → one ≡ other }
    ensures session { (terms : Terms) (r : RequestFields) (ticket : TicketFields) (broken : Rule)
        → Keeps (SessionRule ⟦<O as Opening>⟧ terms r ticket) session_order
        → BreaksFirst (SessionRule ⟦<O as Opening>⟧ terms r ticket) session_order broken → ⊥ }
    ensures session_rule { (terms : Terms) (r : RequestFields) (ticket : TicketFields) (one other : Rule)
        → BreaksFirst (SessionRule ⟦<O as Opening>⟧ terms r ticket) session_order one
        → BreaksFirst (SessionRule ⟦<O as Opening>⟧ terms r ticket) session_order other → one ≡ other }
    ensures client { (terms : Terms) (arrival : Arrival) (ticket : TicketFields) (a : AuthenticatorFields) (broken : Rule)
        → Keeps (AuthenticatorRule ⟦<O as Opening>⟧ terms arrival ticket a) value_order
        → BreaksFirst (AuthenticatorRule ⟦<O as Opening>⟧ terms arrival ticket a) value_order broken → ⊥ }
    ensures client_rule { (terms : Terms) (arrival : Arrival) (ticket : TicketFields) (a : AuthenticatorFields) (one other : Rule)
        → BreaksFirst (AuthenticatorRule ⟦<O as Opening>⟧ terms arrival ticket a) value_order one
        → BreaksFirst (AuthenticatorRule ⟦<O as Opening>⟧ terms arrival ticket a) value_order other → one ≡ other }
{}

/// The same octets are not let in twice over a service's run: between two calls with them any
/// requests may have come, whatever was answered, and old entries may have been forgotten, at no
/// clock later than that of the second call.
pub fn never_again<O: Opening>()
    ensures { (keys session_keys : List ServiceKey) (terms : Terms) (first second : Arrival) (octets : List ℕ) (events : List Event)
        (seen after later last : List Entry) (a b : Accepted)
        → IsAccepted ⟦<O as Opening>⟧ keys session_keys terms first octets seen after a
        → IsRun ⟦<O as Opening>⟧ keys session_keys terms second.clock events after later
        → IsAccepted ⟦<O as Opening>⟧ keys session_keys terms second octets later last b → ⊥ }
{}

/// There is one refusal: two answers to the same request, at the same time and with the same cache,
/// are by the same rule and show the same, unless memory was wanting at one.
pub fn one_refusal<O: Opening>()
    ensures { (keys session_keys : List ServiceKey) (terms : Terms) (arrival : Arrival) (octets : List ℕ)
        (seen : List Entry) (e d : Refusal)
        → IsRefused ⟦<O as Opening>⟧ keys session_keys terms arrival octets seen e
        → IsRefused ⟦<O as Opening>⟧ keys session_keys terms arrival octets seen d
        → (e ≡ plain Rules.OutOfMemory) ⊎ ((d ≡ plain Rules.OutOfMemory) ⊎ (e ≡ d)) }
{}
