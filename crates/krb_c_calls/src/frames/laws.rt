//! Lemmas: functions with no body, whose contracts state what holds of the definitions.

ghost use Rattle.std.specs.Prelude.{◌≡◌, ◌⊎◌, ℕ, List, []};
ghost use Rattle.krb_c_calls.specs.Places.{StandsBefore};
ghost use Rattle.krb_c_calls.specs.Token.{IsMadeToken, IsTokenAt};

/// What `make_gss_token` makes is read as the mechanism and the inner token that it was made of, unless memory is wanting.
pub fn tokens()
    ensures { (mechanism inner octets : List ℕ) (mechanism_offset mechanism_size inner_offset inner_size status : ℕ) → IsMadeToken mechanism inner octets
        → IsTokenAt octets mechanism_offset mechanism_size inner_offset inner_size status
        → (status ≡ 2) ⊎ ((status ≡ 0) × StandsBefore mechanism inner octets mechanism_offset mechanism_size × StandsBefore inner [] octets inner_offset inner_size) }
{}
