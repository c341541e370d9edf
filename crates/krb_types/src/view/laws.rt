//! Lemmas about the definitions.

ghost use Rattle.std.specs.Prelude.{◌≡◌, ◌↔◌, ◌<◌, ◌<ℤ◌, ℕ, List, Option};
ghost use Rattle.krb_der_core.specs.GeneralizedTime.{Time, IsRealTime};
ghost use Rattle.krb_types.specs.Principals.{IsTextOf};
ghost use Rattle.krb_types.specs.Times.{clock_number, unix_seconds};

/// Seconds order times as the calendar and the clock do: as the number YYYYMMDDHHMMSS orders them.
#[tactic(auto, using(crate::proofs::Seconds::ordered))]
pub fn times_are_ordered()
    ensures { (first second : Time) → IsRealTime first → IsRealTime second
        → (clock_number first < clock_number second) ↔ (unix_seconds first <ℤ unix_seconds second) }
{}

/// A text is of one principal at most, so what `principal_of_text` returns is the only one.
#[tactic(auto, using(crate::proofs::Quoting::one_principal))]
pub fn texts_are_of_one_principal()
    ensures { (text : List ℕ) (components others : List (List ℕ)) (realm other : Option (List ℕ)) → IsTextOf components realm text → IsTextOf others other text
        → (components ≡ others) × (realm ≡ other) }
{}
