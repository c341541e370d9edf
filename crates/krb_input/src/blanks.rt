//! Blanks between octets that are text.

ghost use Rattle.std.specs.Prelude.{◌≡◌, IfOk};
ghost use Rattle.krb_input.specs.Blanks.{is_blank, skip_blanks, without_blanks};

use std::alloc::{AllocError, Global};

/// Whether an octet is a blank: a space, a tabulator, a line feed or a carriage return.
pub fn is_blank(octet: u8) -> bool
    ensures { result ≡ is_blank octet }
{
    octet == b' ' || octet == b'\t' || octet == b'\n' || octet == b'\r'
}

/// The octets without the blanks among them: all that are no space, tabulator, line feed or carriage return, in their order. `AllocError` where an
/// allocation failed, which is the only error.
pub fn without_blanks(alloc: Global, octets: &[u8]) -> Result<Vec<u8>, AllocError>
    ensures { IfOk result (λ text. text.items ≡ without_blanks octets.now) }
{
    let mut text = Vec::with_capacity(alloc, octets.len())?;
    for octet in octets {
        if !is_blank(*octet) {
            text.push(*octet)?;
        }
    }
    Ok(text)
}

/// The octets from the first on that is no blank.
pub fn skip_blanks(octets: &[u8]) -> &[u8]
    ensures { result.now ≡ skip_blanks octets.now }
{
    let mut rest = octets;
    while let Some((first, behind)) = rest.split_first() {
        if !is_blank(*first) {
            return rest;
        }
        rest = behind;
    }
    rest
}
