//! Lemmas about the tables.

ghost use Rattle.std.specs.Prelude.{◌≡◌, ℕ, ℤ, List, All};
ghost use Rattle.krb_registry.specs.Names.{table, mechanisms, IsRow, IsMechanism, IsPlain};

use crate::kind::Kind;

/// In each table numbers are distinct and names are distinct, so `number` of what `name` returns is the number, and `name` of
/// what `number` returns is the name.
pub fn numbers_and_names()
    ensures one_name { (kind : Kind) (number : ℤ) (a b : List ℕ) → IsRow kind number a → IsRow kind number b → a ≡ b }
    ensures one_number { (kind : Kind) (a b : ℤ) (name : List ℕ) → IsRow kind a name → IsRow kind b name → a ≡ b }
{}

/// In the table of mechanisms object identifiers are distinct and names are distinct.
pub fn identifiers_and_names()
    ensures one_name { (identifier a b : List ℕ) → IsMechanism identifier a → IsMechanism identifier b → a ≡ b }
    ensures one_identifier { (a b name : List ℕ) → IsMechanism a name → IsMechanism b name → a ≡ b }
{}

/// Each name is printable ASCII without blanks.
#[tactic(auto, using(crate::proofs::Distinct::names_are_plain))]
pub fn names_are_plain()
    ensures names { (kind : Kind) → All (λ row. IsPlain row.1) (table kind) }
    ensures mechanisms { All (λ row. IsPlain row.0 × IsPlain row.1) mechanisms }
{}
