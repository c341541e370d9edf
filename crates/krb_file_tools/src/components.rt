//! The components of a principal of a file.

ghost use Rattle.std.specs.Prelude.{◌≡◌, map, IfOk};

use krb_files::fields::ComponentsView;
use std::alloc::{AllocError, Global};

/// The octets of components, in their order.
pub(crate) fn components_of<'a>(
    alloc: Global,
    components: ComponentsView<'a>,
) -> Result<Vec<&'a [u8]>, AllocError>
    ensures { IfOk result (λ v. map (λ x. x.now) v.items ≡ components.entry) }
{
    components.collect(alloc)
}
