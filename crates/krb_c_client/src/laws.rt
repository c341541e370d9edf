//! Lemmas about exchanges that the caller keeps: what comes back, and what whole runs of calls do.

ghost use Rattle.std.specs.Prelude.{◌≡◌, ◌≤◌, ℕ, ℤ, List, length, Option, Some, None};
ghost use Rattle.krb_client_rules.specs.declared.key.Key.{Key};
ghost use Rattle.krb_crypto.specs.BySuite.{key_octets_of};
ghost use Rattle.krb_c_client.specs.CallRuns.{FirstCall, FirstCalls, FurtherCall, FurtherCalls, IsFirstCall, IsFurtherCall, first_requests, further_requests};
ghost use Rattle.krb_c_client.specs.Exchanges.{IsKeyIn, offset_in, written};
ghost use Rattle.krb_c_client.specs.Records.{broken};
ghost use Rattle.krb_c_client.specs.Turns.{HasBegun, IsFirstTurn, IsFurtherTurn, IsUnbegun};
ghost use Rattle.krb_c_client.specs.declared.records.ExchangeRecord.{ExchangeRecord as ExchangeOf};
ghost use Rattle.krb_client.specs.Runs.{sent_by};

use krb_client::{Encodings, Rfc4120};
use krb_der::DerEncode;
use krb_messages::messages::EncTgsRepPart;
use krb_types::data_types::Ticket;

/// The offset and the key that were written are read, where the key has its suite's length; no key
/// is read where none was written. An exchange that was written has begun, so it is never all
/// zeros, whatever the nonce.
pub fn what_is_kept_is_read()
    ensures offset { (offset : Option ℤ) (nonce : ℕ) (key : Option Key) → offset_in (written offset nonce key) ≡ offset }
    ensures key { (offset : Option ℤ) (nonce : ℕ) (key read : Key) → length key.octets.items ≡ key_octets_of key.suite
        → IsKeyIn (written offset nonce (Some key)) (Some read) → (read.suite ≡ key.suite) × (read.octets.items ≡ key.octets.items) }
    ensures no_key { (offset : Option ℤ) (nonce : ℕ) (read : Key) → IsKeyIn (written offset nonce None) (Some read) → ⊥ }
    ensures begun { (offset : Option ℤ) (nonce : ℕ) (key : Option Key) → HasBegun (written offset nonce key) }
    ensures not_unbegun { (offset : Option ℤ) (nonce : ℕ) (key : Option Key) → IsUnbegun (written offset nonce key) → ⊥ }
{}

/// Whatever comes to `initial`, at whatever times, under whatever terms, with the exchange handed
/// from each call to the next: at most three requests are handed out (RFC 4120, 3.1). A call out of
/// turn, as one without octets after the first request, is refused by rule 1 and changes nothing.
/// After a call that is done the exchange has begun, so only the caller can have it begin anew.
pub fn initial_calls()
    ensures requests { (before : ExchangeOf) (calls : List FirstCall) (after : ExchangeOf)
        → FirstCalls ⟦<Ticket as DerEncode>⟧ ⟦<EncTgsRepPart as DerEncode>⟧ ⟦<Rfc4120 as Encodings>⟧.initial before calls after
        → sent_by first_requests calls ≤ 3 }
    ensures out_of_turn { (before : ExchangeOf) (call : FirstCall) (after : ExchangeOf)
        → IsFirstCall ⟦<Ticket as DerEncode>⟧ ⟦<EncTgsRepPart as DerEncode>⟧ ⟦<Rfc4120 as Encodings>⟧.initial before call after
        → (IsFirstTurn before call.inputs.message → ⊥)
        → (call.answered.status ≡ 42) × (call.answered.told ≡ broken 1 0) × (after ≡ before) }
    ensures begun { (before : ExchangeOf) (call : FirstCall) (after : ExchangeOf)
        → IsFirstCall ⟦<Ticket as DerEncode>⟧ ⟦<EncTgsRepPart as DerEncode>⟧ ⟦<Rfc4120 as Encodings>⟧.initial before call after
        → call.answered.status ≡ 0 → HasBegun after }
{}

/// Whatever comes to `ticket`, at whatever times, under whatever terms, by whatever tickets, with
/// the exchange handed from each call to the next: at most two requests are handed out (RFC 4120,
/// 3.3). Else as `initial_calls`.
pub fn ticket_calls()
    ensures requests { (before : ExchangeOf) (calls : List FurtherCall) (after : ExchangeOf)
        → FurtherCalls ⟦<Ticket as DerEncode>⟧ ⟦<EncTgsRepPart as DerEncode>⟧ ⟦<Rfc4120 as Encodings>⟧.service before calls after
        → sent_by further_requests calls ≤ 2 }
    ensures out_of_turn { (before : ExchangeOf) (call : FurtherCall) (after : ExchangeOf)
        → IsFurtherCall ⟦<Ticket as DerEncode>⟧ ⟦<EncTgsRepPart as DerEncode>⟧ ⟦<Rfc4120 as Encodings>⟧.service before call after
        → (IsFurtherTurn before call.inputs.message → ⊥)
        → (call.answered.status ≡ 42) × (call.answered.told ≡ broken 1 0) × (after ≡ before) }
    ensures begun { (before : ExchangeOf) (call : FurtherCall) (after : ExchangeOf)
        → IsFurtherCall ⟦<Ticket as DerEncode>⟧ ⟦<EncTgsRepPart as DerEncode>⟧ ⟦<Rfc4120 as Encodings>⟧.service before call after
        → call.answered.status ≡ 0 → HasBegun after }
{}
