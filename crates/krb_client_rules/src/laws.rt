//! Lemmas about the rules in their order: functions with no body, each of whose clauses is a fact.

ghost use Rattle.std.specs.Prelude.{◌≡◌, ℕ, Bool};
ghost use Rattle.krb_client_rules.specs.PartRules.{Answers, IsNoAnswer};
ghost use Rattle.krb_client_rules.specs.ReplyRules.{IsExpected, IsUnexpected};
ghost use Rattle.krb_client_rules.specs.declared.asked.Asked.{Asked as AskedOf};
ghost use Rattle.krb_client_rules.specs.declared.asked.Clock.{Clock as ClockOf};
ghost use Rattle.krb_client_rules.specs.declared.mismatch.Mismatch.{Mismatch as MismatchOf};
ghost use Rattle.krb_messages.specs.declared.messages.replies.EncKdcRepPart.{EncKdcRepPart as PartOf};
ghost use Rattle.krb_messages.specs.declared.messages.replies.KdcRep.{KdcRep as ReplyOf};

/// To a reply and to a part there is one answer: where all rules hold, none is the first that is
/// broken, and no two are. So `is_expected` and `answers` answer `Ok` exactly if all rules hold, and
/// a rule exactly if it is the first that is broken.
pub fn one_answer()
    ensures expected { (a : AskedOf) (initial : Bool) (etype : ℕ) (m : ReplyOf) (broken : MismatchOf)
        → IsExpected a initial etype m → IsUnexpected a initial etype m broken → ⊥ }
    ensures unexpected { (a : AskedOf) (initial : Bool) (etype : ℕ) (m : ReplyOf) (one other : MismatchOf)
        → IsUnexpected a initial etype m one → IsUnexpected a initial etype m other → one ≡ other }
    ensures answers { (a : AskedOf) (c : ClockOf) (p : PartOf) (broken : MismatchOf)
        → Answers a c p → IsNoAnswer a c p broken → ⊥ }
    ensures no_answer { (a : AskedOf) (c : ClockOf) (p : PartOf) (one other : MismatchOf)
        → IsNoAnswer a c p one → IsNoAnswer a c p other → one ≡ other }
{}
