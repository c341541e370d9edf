//! What keys open in a page, and what is known of checksums.

ghost use Rattle.std.specs.Prelude.{ℕ, List, IfOk};
ghost use Rattle.krb_decrypt.specs.Keys.{NamedKey};
ghost use Rattle.krb_decrypt.specs.Pages.{is_decrypted_page};
ghost use Rattle.krb_show.specs.Tokens.{Token};

use krb_decrypt::{Key, TellsBehind};
use krb_show::{Page, ShowsFormats};
use krb_show_messages::KerberosFormats;
use krb_show_pac::{Checksums, page_with_checked};
use std::alloc::{AllocError, Global};

/// What opens the encrypted parts of a page.
pub trait Opens {
    /// What is opened: how many keys there may be with those that are found, the keys, the page, and the page with what they open.
    ghost opens: { ℕ → List NamedKey → List Token → List Token → Type 0 };

    /// The page with what the keys open.
    fn opened(alloc: Global, most: usize, keys: Vec<Key>, page: Page) -> Result<Page, AllocError>
        ensures { IfOk result (λ made. opens most keys.items page.items made.items) };
}

/// As `page_with_checked` opens them.
#[derive(Drop)]
pub struct Opened;

impl Opens for Opened {
    ghost opens = { λ most keys. is_decrypted_page ⟦<KerberosFormats as ShowsFormats>⟧.tells ⟦<KerberosFormats as ShowsFormats>⟧.places ⟦<Checksums as TellsBehind>⟧.tells most keys keys };

    fn opened(alloc: Global, most: usize, keys: Vec<Key>, page: Page) -> Result<Page, AllocError> {
        page_with_checked(alloc, most, keys, page)
    }
}
