//! Messages of their parts (RFC 4120, 5.4 to 5.9).

ghost use Rattle.std.specs.Prelude.{◌≡◌, Option};

use krb_der::{ExplicitContextTag, Optional};

mod applications;
mod errors;
mod known;
mod negotiation;
mod requests;

pub use applications::ap_req;
pub use errors::{ErrorParts, krb_error};
pub use negotiation::{gss_api_neg_init, neg_token_init};
pub use requests::{AsReqParts, as_req};

/// A field that may be absent, under its tag.
fn field<T, N>(value: Option<T>) -> Optional<Option<ExplicitContextTag<T, N>>>
    ensures { result.0 ≡ value }
{
    match value {
        Some(value) => Optional(Some(ExplicitContextTag::from(value))),
        None => Optional(None),
    }
}
