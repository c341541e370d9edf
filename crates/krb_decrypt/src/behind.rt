//! What is told behind a decrypted part.

ghost use Rattle.std.specs.Prelude.{◌≡◌, ℕ, List, OnOk};
ghost use Rattle.krb_decrypt.specs.Keys.{NamedKey};
ghost use Rattle.krb_decrypt.specs.declared.usage.Usage.{Usage};
ghost use Rattle.krb_show.specs.Tokens.{Begins, Token};

use crate::key::Key;
use crate::usage::Usage;
use krb_show::Page;
use std::alloc::{AllocError, Global};

/// What is told behind a decrypted part, as whether the checksums of a ticket's PAC hold.
pub trait TellsBehind {
    /// What is told: what tells, the key that decrypted the part, the usage, the part's octets, the page before and the page after.
    ghost tells: { Self → NamedKey → Usage → List ℕ → List Token → List Token → Type 0 };

    /// Appends what is told to the page.
    fn tell(
        &self,
        alloc: Global,
        key: &Key,
        usage: Usage,
        octets: &[u8],
        page: &mut Page,
    ) -> Result<(), AllocError>
        ensures ok { OnOk result (tells self.now key.now usage octets.now page.old.items page.new.items) }
        ensures kept { OnOk result (Begins page.old.items page.new.items) };
}

/// Nothing is told.
#[derive(Drop)]
pub struct Nothing;

impl TellsBehind for Nothing {
    ghost tells = { λ nothing key usage octets old new. new ≡ old };

    fn tell(
        &self,
        _alloc: Global,
        _key: &Key,
        _usage: Usage,
        _octets: &[u8],
        _page: &mut Page,
    ) -> Result<(), AllocError> {
        Ok(())
    }
}
