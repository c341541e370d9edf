//! Lemmas about the definitions and about whole runs over octets: functions with no body of their
//! own, each of whose clauses is a fact.

ghost use Rattle.std.specs.Prelude.{◌≡◌, ◌++◌, ◌∷◌, [], ℕ, List, Option, false};
ghost use Rattle.krb_spnego.specs.Hearing.{AcceptorHears, InitiatorHears, IsAcceptorAfter, IsAcceptorAfterOffer, IsInitiatorAfter};
ghost use Rattle.krb_spnego.specs.Agreeing.{FirstReplyAgrees, LaterAgrees, OfferAgrees, offered_name};
ghost use Rattle.krb_spnego.specs.Asking.{first_reply_asks, later_asks, offer_asks};
ghost use Rattle.krb_spnego_rules.specs.AcceptorSteps.{IsOffered};
ghost use Rattle.krb_spnego_rules.specs.InitiatorSteps.{Replied};
ghost use Rattle.krb_spnego_rules.specs.Steps.{Later, Outcome};
ghost use Rattle.krb_spnego_rules.specs.declared.initiator.Offered.{Offered as OfferedOf};
ghost use Rattle.krb_spnego_rules.specs.declared.message.Message.{Message as MessageOf};
ghost use Rattle.krb_spnego_rules.specs.declared.message.Proposal.{Proposal as ProposalOf};
ghost use Rattle.krb_spnego_rules.specs.declared.side.Running.{Running as RunningOf};
ghost use Rattle.krb_spnego_rules.specs.declared.words.Role.{Role};
ghost use Rattle.krb_spnego.specs.Retelling.{AcceptorIsTold, InitiatorIsTold};
ghost use Rattle.krb_spnego.specs.Told.{told_meaning};
ghost use Rattle.krb_spnego.specs.declared.told.Told.{Told as ToldOf};
ghost use Rattle.krb_spnego.specs.Taking.{AcceptorTakes, Taken, is_fresh_side};
ghost use Rattle.krb_spnego_rules.specs.Justified.{IsAcceptor, IsInitiator, Offering, Received};
ghost use Rattle.krb_spnego_rules.specs.declared.acceptor.Acceptor.{Acceptor as AcceptorOf};
ghost use Rattle.krb_spnego_rules.specs.declared.acceptor.Acceptor.TheVariants as acceptors;
ghost use Rattle.krb_spnego_rules.specs.declared.acceptor.Fresh.{Fresh as FreshOf};
ghost use Rattle.krb_spnego_rules.specs.declared.initiator.Initiator.{Initiator as InitiatorOf};
ghost use Rattle.krb_spnego_rules.specs.declared.initiator.Initiator.TheVariants as initiators;
ghost use Rattle.krb_spnego_rules.specs.declared.message.Refusal.{Refusal as RefusalOf};
ghost use Rattle.krb_spnego_rules.specs.declared.words.NegState.{NegState};

use crate::told::Told;
use krb_der::DerEncode;
use krb_der::laws::concatenated_encodings;
use krb_gss_tokens::gss_api::{ApplicationTag0, GssApiNegInit, MechTypeList, NegTokenTarg1};
use krb_spnego_rules::Mechanism;
use krb_spnego_rules::laws::{acceptor_is_justified, initiator_is_justified};

/// Lists of mechanisms with the same encoding are the same (X.690, 10): a MIC over the encoding is
/// one over the list.
pub fn lists()
    ensures { (a b : List (List ℕ)) → ⟦<MechTypeList as DerEncode>⟧.is_value a → ⟦<MechTypeList as DerEncode>⟧.is_value b
        → ⟦<MechTypeList as DerEncode>⟧.enc a ≡ ⟦<MechTypeList as DerEncode>⟧.enc b → a ≡ b }
{
    concatenated_encodings::<MechTypeList>();
}

/// No downgrade without a forged MIC, of an initiator over octets (RFC 4178, 5 and 7). After any
/// octets, one after another, it has failed, for good; or the last ones are the one encoding of a
/// NegTokenResp, and it is as `krb_spnego_rules::laws::initiator_is_justified` says: complete only
/// with a mechanism that it offered and that supportedMech named, where the MIC of that last
/// message holds of just the list that was sent, or where it is on its preferred mechanism, nobody
/// asked for MICs, and that last message says accept-completed.
pub fn initiator<M: Mechanism>()
    ensures heard { (offering : Offering) (state : Option NegState) (came : Option (List ℕ)) (before : InitiatorOf M)
        (all : List (List ℕ)) (last : List ℕ) (after : InitiatorOf M)
        → IsInitiator M.meaning offering state came before
        → InitiatorHears ⟦<NegTokenTarg1 as DerEncode>⟧ M.meaning before (all ++ last ∷ []) after
        → IsInitiatorAfter ⟦<NegTokenTarg1 as DerEncode>⟧ M.meaning offering last after }
    ensures failed { (refusal : RefusalOf) (all : List (List ℕ)) (after : InitiatorOf M)
        → InitiatorHears ⟦<NegTokenTarg1 as DerEncode>⟧ M.meaning (initiators.Failed refusal) all after
        → after ≡ initiators.Failed refusal }
{
    initiator_is_justified::<M>();
}

/// No downgrade without a forged MIC, of an acceptor over octets. After its first octets it has
/// failed, or a mechanism took them as its own with no negotiation around them, of which nothing is
/// said; or they are the one encoding of an offer. After any further octets the last ones are the
/// one encoding of a NegTokenResp, and it is as `krb_spnego_rules::laws::acceptor_is_justified`
/// says of the list that it got.
pub fn acceptor<M: Mechanism>()
    ensures offered { (fresh : FreshOf M) (octets : List ℕ) (result : Taken (AcceptorOf M))
        → AcceptorTakes ⟦<ApplicationTag0<GssApiNegInit> as DerEncode>⟧ ⟦<MechTypeList as DerEncode>⟧ ⟦<NegTokenTarg1 as DerEncode>⟧ M.meaning
        (acceptors.Fresh fresh) octets result
        → IsAcceptorAfterOffer ⟦<ApplicationTag0<GssApiNegInit> as DerEncode>⟧ ⟦<MechTypeList as DerEncode>⟧ M.meaning fresh octets result.0 }
    ensures heard { (mechanisms : List M) (received : Received) (state : Option NegState) (came : Option (List ℕ)) (before : AcceptorOf M)
        (all : List (List ℕ)) (last : List ℕ) (after : AcceptorOf M) → is_fresh_side before ≡ false
        → IsAcceptor M.meaning mechanisms received state came before
        → AcceptorHears ⟦<ApplicationTag0<GssApiNegInit> as DerEncode>⟧ ⟦<MechTypeList as DerEncode>⟧ ⟦<NegTokenTarg1 as DerEncode>⟧ M.meaning
        before (all ++ last ∷ []) after
        → IsAcceptorAfter ⟦<NegTokenTarg1 as DerEncode>⟧ M.meaning mechanisms received last after }
    ensures failed { (refusal : RefusalOf) (all : List (List ℕ)) (after : AcceptorOf M)
        → AcceptorHears ⟦<ApplicationTag0<GssApiNegInit> as DerEncode>⟧ ⟦<MechTypeList as DerEncode>⟧ ⟦<NegTokenTarg1 as DerEncode>⟧ M.meaning
        (acceptors.Failed refusal) all after
        → after ≡ acceptors.Failed refusal }
{
    acceptor_is_justified::<M>();
}

/// No downgrade without a forged MIC, of an initiator whose mechanisms run elsewhere. Before each
/// step its caller tells of them anew, and nothing else changes. After any octets, one after
/// another, it has failed, or the last ones are the one encoding of a NegTokenResp, and it is as
/// `initiator` says: a MIC that holds is the one that the caller verified, of the list that was
/// sent.
pub fn told_initiator()
    ensures { (offering : Offering) (state : Option NegState) (came : Option (List ℕ)) (before : InitiatorOf ToldOf)
        (all : List (List ℕ)) (last : List ℕ) (after : InitiatorOf ToldOf)
        → IsInitiator told_meaning offering state came before
        → InitiatorIsTold ⟦<NegTokenTarg1 as DerEncode>⟧ before (all ++ last ∷ []) after
        → IsInitiatorAfter ⟦<NegTokenTarg1 as DerEncode>⟧ told_meaning offering last after }
{
    initiator_is_justified::<Told>();
}

/// No downgrade without a forged MIC, of an acceptor whose mechanisms run elsewhere, after its
/// offer, of which `acceptor` speaks.
pub fn told_acceptor()
    ensures { (mechanisms : List ToldOf) (received : Received) (state : Option NegState) (came : Option (List ℕ)) (before : AcceptorOf ToldOf)
        (all : List (List ℕ)) (last : List ℕ) (after : AcceptorOf ToldOf)
        → IsAcceptor told_meaning mechanisms received state came before
        → AcceptorIsTold ⟦<ApplicationTag0<GssApiNegInit> as DerEncode>⟧ ⟦<MechTypeList as DerEncode>⟧ ⟦<NegTokenTarg1 as DerEncode>⟧ before
        (all ++ last ∷ []) after
        → IsAcceptorAfter ⟦<NegTokenTarg1 as DerEncode>⟧ told_meaning mechanisms received last after }
{
    acceptor_is_justified::<Told>();
}

/// What `acceptor_asks` and `initiator_asks` tell of a message is what the step then asks of the
/// mechanisms: where they refuse, the machine fails so, whatever is told; else it goes on with just
/// this mechanism, which steps or not, with this token and this MIC.
pub fn questions()
    ensures later { (role : Role) (side : RunningOf ToldOf) (message : MessageOf) (out : Outcome ToldOf)
        → Later told_meaning role side message out → LaterAgrees role side message out (later_asks side message) }
    ensures offer { (fresh : FreshOf ToldOf) (proposal : ProposalOf) (out : Outcome ToldOf)
        → IsOffered told_meaning fresh proposal out
        → OfferAgrees (offered_name fresh proposal) proposal out (offer_asks fresh proposal) }
    ensures first_reply { (offered : OfferedOf ToldOf) (message : MessageOf) (out : Outcome ToldOf)
        → Replied told_meaning offered message out
        → FirstReplyAgrees offered.established offered.list message out (first_reply_asks offered message) }
{}
