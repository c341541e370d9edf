//! The number that a content is.

ghost use Rattle.std.specs.Prelude.{◌≡◌};
ghost use Rattle.krb_c_calls.specs.ContentNumbers.{IsContentNumber};

use crate::call_error::{CallError, DONE};
use krb_der_core::{Der, IntegerAsn1};
use std::alloc::Global;

/// The tag of an INTEGER: universal 2 (X.690, 8.3).
const INTEGER: u8 = 0x02;

/// Hands out the number whose INTEGER has this content (X.690, 8.3).
pub(crate) fn content_number(alloc: Global, content: &[u8], number: &mut i64) -> u32
    ensures { IsContentNumber content.now number.new result }
{
    *number = 0;
    let value = match IntegerAsn1::read_element(alloc, INTEGER, content) {
        Ok(value) => value,
        Err(error) => return CallError::from(error).status(),
    };
    match value.to_i64() {
        Some(small) => {
            *number = small;
            DONE
        }
        None => CallError::TooLarge.status(),
    }
}
