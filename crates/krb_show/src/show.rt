//! Types whose values have tokens.

ghost use Rattle.std.specs.Prelude.{◌≡◌, List, OnOk, OnErr};
ghost use Rattle.krb_show.specs.Tokens.{Label, Token, Begins};

use crate::token::{Label, Page};
use std::alloc::{AllocError, Global};

/// A type whose values are shown as tokens. `K` is any type of the crate that shows them: it says whose way of showing this is.
pub trait Show<K> {
    /// What a page is after the tokens of a value under a label are appended to it: the label, the value, the page before and the page
    /// after.
    ghost shows: { Label → Self → List Token → List Token → Type 0 };

    /// Appends the tokens of this value to the page, which is as before where an allocation fails.
    fn show(&self, alloc: Global, label: &Label, page: &mut Page) -> Result<(), AllocError>
        ensures ok { OnOk result (shows label.now self.now page.old.items page.new.items) }
        ensures kept { OnOk result (Begins page.old.items page.new.items) }
        ensures err { OnErr result (page.new.items ≡ page.old.items) };
}
