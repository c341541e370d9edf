//! Laws over the definitions, of functions that do nothing.

ghost use Rattle.std.specs.Prelude.{◌≡◌, ◌++◌, List, ℕ};
ghost use Rattle.krb_der.specs.Equality.{ClonesValue, DecidesEqual};
ghost use Rattle.krb_types.specs.TokenInfo.{IsTokenInfo, lsap_token_info};

use crate::lsap::token::LsapTokenInfoIntegrity;

/// Octets begin with one record at most, and what follows it is the same.
pub fn one_reading()
    ensures { (r s : LsapTokenInfoIntegrity) (x y : List ℕ) → IsTokenInfo r → IsTokenInfo s
        → lsap_token_info r ++ x ≡ lsap_token_info s ++ y → (r ≡ s) × (x ≡ y) }
{}

/// `==` on records is true of equal values, and of no others.
pub fn equality()
    ensures { DecidesEqual ⟦<LsapTokenInfoIntegrity as PartialEq>⟧.eq }
{}

/// A clone of a record equals it.
pub fn clones()
    ensures { ClonesValue ⟦<LsapTokenInfoIntegrity as Clone>⟧.is_clone }
{}
