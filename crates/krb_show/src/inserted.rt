//! Pages with insertions.

ghost use Rattle.std.specs.Prelude.{[], IfOk};
ghost use Rattle.krb_show.specs.Walk.{walk_of};

use crate::Page;
use crate::insert::Insert;
use std::alloc::{AllocError, Global};

/// The page with what is inserted: the tokens of the page in their order, and before each token what stands before it. The only error is an
/// allocation failure.
pub fn page_with<I: Insert>(
    alloc: Global,
    inserting: &mut I,
    page: Page,
) -> Result<Page, AllocError>
    ensures { IfOk result (λ made. walk_of I.inserts inserting.old page.items [] inserting.new made.items) }
{
    let mut made = Vec::with_capacity(alloc, page.len())?;
    'tokens: for token in page {
        inserting.insert(alloc, &token, &mut made)?;
        made.push(token)?;
    }
    Ok(made)
}
