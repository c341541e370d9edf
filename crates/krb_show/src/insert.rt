//! What is inserted before tokens.

ghost use Rattle.std.specs.Prelude.{List, OnOk};
ghost use Rattle.krb_show.specs.Tokens.{Begins, Token};

use crate::{Page, Token};
use std::alloc::{AllocError, Global};

/// What inserts tokens into a page. It is asked before each token, in their order, and may learn from what it has seen.
pub trait Insert {
    /// What is inserted: this before, the next token, the page up to that token, this after, and the page with what is inserted.
    ghost inserts: { Self → Token → List Token → Self → List Token → Type 0 };

    /// Appends what stands before the next token to the page up to it.
    fn insert(&mut self, alloc: Global, next: &Token, page: &mut Page) -> Result<(), AllocError>
        ensures ok { OnOk result (inserts self.old next.now page.old.items self.new page.new.items) }
        ensures kept { OnOk result (Begins page.old.items page.new.items) };
}
