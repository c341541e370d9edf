//! Lemmas about whole runs of an exchange: functions with no body, each of whose clauses is a fact.

ghost use Rattle.std.specs.Prelude.{◌≡◌, ◌+◌, ◌≤◌, ℕ, ℤ, List, Option, Some};
ghost use Rattle.krb_client.specs.declared.keys.secret.Secret.{Secret as SecretOf};
ghost use Rattle.krb_client.specs.declared.replies.granted.Granted.{Granted as GrantedOf};
ghost use Rattle.krb_client_rules.specs.declared.asked.Asked.{Asked as AskedOf};
ghost use Rattle.krb_client_rules.specs.declared.key.Key.{Key as KeyOf};
ghost use Rattle.krb_client.specs.Initial.{IsBegun, IsStep};
ghost use Rattle.krb_client.specs.InitialRuns.{InitialCall, InitialRuns, IsLastRequest, IsTicketFor, requests_of, sent_by_call};
ghost use Rattle.krb_client.specs.Runs.{Sent, last_sent, sent_by};
ghost use Rattle.krb_client.specs.Service.{IsServiceBegun, IsServiceStep};
ghost use Rattle.krb_client.specs.ServiceRuns.{IsLastServiceRequest, IsServiceTicketFor, ServiceCall, ServiceRuns};
ghost use Rattle.krb_client.specs.ServiceRuns.{requests_of as service_requests_of, sent_by_call as sent_by_service_call};
ghost use Rattle.krb_client.specs.declared.initial.InitialExchange.{InitialExchange as InitialExchangeOf};
ghost use Rattle.krb_client.specs.declared.initial.InitialStep.TheVariants as steps;
ghost use Rattle.krb_client.specs.declared.moment.Moment.{Moment as MomentOf};
ghost use Rattle.krb_client.specs.declared.service.ServiceExchange.{ServiceExchange as ServiceExchangeOf};
ghost use Rattle.krb_client.specs.declared.service.ServiceStep.TheVariants as service_steps;
ghost use Rattle.krb_client.specs.declared.terms.ByTicket.{ByTicket as ByTicketOf};
ghost use Rattle.krb_client.specs.declared.terms.Terms.{Terms as TermsOf};

use crate::messages::Encodings;

/// Whatever a KDC, or anybody else, sends to an exchange for a first ticket after its beginning
/// (RFC 4120, 3.1): it sends at most three AS-REQs, the first among them; it takes the KDC's time
/// and a key at most once each; it waits for a reply to the last request that it made, which has a
/// nonce, a time and a key of its own; and it hands out a ticket only where the octets of that very
/// step grant it, under the key of that request or the client's for the reply, to what was asked
/// under the nonce of that request.
pub fn initial_runs<E: Encodings>()
    ensures requests { (terms : TermsOf) (a : AskedOf) (m : MomentOf) (begun : InitialExchangeOf) (request : List ℕ)
        (calls : List InitialCall) (after : InitialExchangeOf) → IsBegun E.initial terms a m begun request
        → InitialRuns E.initial terms begun calls after → 1 + sent_by requests_of calls ≤ 3 }
    ensures offset { (terms : TermsOf) (before : InitialExchangeOf) (calls : List InitialCall)
        (after : InitialExchangeOf) (offset : ℤ) → InitialRuns E.initial terms before calls after → before.offset ≡ Some offset → after.offset ≡ Some offset }
    ensures key { (terms : TermsOf) (before : InitialExchangeOf) (calls : List InitialCall)
        (after : InitialExchangeOf) (key : KeyOf) → InitialRuns E.initial terms before calls after → before.key ≡ Some key → after.key ≡ Some key }
    ensures last { (terms : TermsOf) (a : AskedOf) (m : MomentOf) (begun : InitialExchangeOf) (request : List ℕ)
        (calls : List InitialCall) (after : InitialExchangeOf) → IsBegun E.initial terms a m begun request
        → InitialRuns E.initial terms begun calls after
        → IsLastRequest E.initial terms a after
        (last_sent sent_by_call (record { moment = m; request = request }) calls) }
    ensures ticket { (terms : TermsOf) (a : AskedOf) (m : MomentOf) (begun : InitialExchangeOf) (request : List ℕ)
        (calls : List InitialCall) (before : InitialExchangeOf) (s : SecretOf) (now : MomentOf) (octets : List ℕ)
        (g : GrantedOf) (after : InitialExchangeOf) → IsBegun E.initial terms a m begun request
        → InitialRuns E.initial terms begun calls before
        → IsStep E.initial terms before s now octets (steps.Granted g) after
        → IsTicketFor E.initial terms a before
        (last_sent sent_by_call (record { moment = m; request = request }) calls) s now octets g }
{}

/// Whatever comes to an exchange for a further ticket after its beginning (RFC 4120, 3.3): it sends
/// at most two TGS-REQs, the first among them; it takes the KDC's time at most once; it waits for a
/// reply to the last request that it made, under the subkey with which it began; and it hands out a
/// ticket only where the octets of that very step grant it, under the subkey, to what was asked
/// under the nonce of that request.
pub fn service_runs<E: Encodings>()
    ensures requests { (terms : TermsOf) (by : ByTicketOf) (before : ServiceExchangeOf) (calls : List ServiceCall)
        (after : ServiceExchangeOf) → ServiceRuns E.service terms by before calls after
        → 1 + sent_by service_requests_of calls ≤ 2 }
    ensures offset { (terms : TermsOf) (by : ByTicketOf) (before : ServiceExchangeOf) (calls : List ServiceCall)
        (after : ServiceExchangeOf) (offset : ℤ) → ServiceRuns E.service terms by before calls after
        → before.offset ≡ Some offset → after.offset ≡ Some offset }
    ensures last { (terms : TermsOf) (by : ByTicketOf) (a : AskedOf) (subkey : KeyOf) (offset : Option ℤ) (m : MomentOf)
        (begun : ServiceExchangeOf) (request : List ℕ) (calls : List ServiceCall) (after : ServiceExchangeOf)
        → IsServiceBegun E.service terms by a subkey offset m begun request
        → ServiceRuns E.service terms by begun calls after
        → IsLastServiceRequest E.service terms by a subkey after
        (last_sent sent_by_service_call (record { moment = m; request = request }) calls) }
    ensures ticket { (terms : TermsOf) (by : ByTicketOf) (a : AskedOf) (subkey : KeyOf) (offset : Option ℤ)
        (m : MomentOf) (begun : ServiceExchangeOf) (request : List ℕ) (calls : List ServiceCall) (before : ServiceExchangeOf)
        (now : MomentOf) (octets : List ℕ) (g : GrantedOf) (after : ServiceExchangeOf)
        → IsServiceBegun E.service terms by a subkey offset m begun request
        → ServiceRuns E.service terms by begun calls before
        → IsServiceStep E.service terms by before now octets (service_steps.Granted g) after
        → IsServiceTicketFor E.service terms by a subkey before
        (last_sent sent_by_service_call (record { moment = m; request = request }) calls) now octets g }
{}
