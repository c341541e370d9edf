//! Pages of octets, by their kind.

ghost use Rattle.std.specs.Prelude.{ℕ, List, Result, Vec};
ghost use Rattle.std.specs.declared.alloc.Global.{Global};
ghost use Rattle.krb_show.specs.Tokens.{Token};

use krb_show::Page;
use std::alloc::Global;

/// What makes pages of octets, by their kind.
pub trait Pages<K, E> {
    /// Which page octets of a kind have, or which error.
    ghost tells: { K → List ℕ → Result (Vec Token Global) E → Type 0 };

    /// The page of octets of a kind.
    fn page_of(alloc: Global, kind: K, octets: &[u8]) -> Result<Page, E>
        ensures { tells kind octets.now result };
}
