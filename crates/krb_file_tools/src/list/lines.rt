//! Lines, and columns of them.

ghost use Rattle.std.specs.Prelude.{◌≡◌, ◌++◌, ◌∷◌, [], IfOk, OnOk};
ghost use Rattle.std.specs.List.{flat_map};
ghost use Rattle.krb_file_tools.specs.Texts.{padded};

use std::alloc::{AllocError, Global};

/// The pieces of a line, one behind the other.
pub(crate) fn joined(alloc: Global, pieces: &[&[u8]]) -> Result<Vec<u8>, AllocError>
    ensures { IfOk result (λ text. text.items ≡ flat_map (λ p. p.now) pieces.now) }
{
    let mut text = Vec::new(alloc);
    'pieces: for piece in pieces {
        text.extend_from_slice(piece)?;
    }
    Ok(text)
}

/// A text behind a word.
pub(crate) fn behind(alloc: Global, word: &[u8], text: &[u8]) -> Result<Vec<u8>, AllocError>
    ensures { IfOk result (λ both. both.items ≡ word.now ++ text.now) }
{
    let mut both = Vec::new(alloc);
    both.extend_from_slice(word)?;
    both.extend_from_slice(text)?;
    Ok(both)
}

/// Digits in four columns, or more where the digits are more.
pub(crate) fn padded(alloc: Global, digits: &[u8]) -> Result<Vec<u8>, AllocError>
    ensures { IfOk result (λ text. text.items ≡ padded digits.now) }
{
    let blanks = b"    ".as_slice();
    let (missing, _) = blanks.split_at(4usize.saturating_sub(digits.len()));
    let mut text = Vec::new(alloc);
    text.extend_from_slice(missing)?;
    text.extend_from_slice(digits)?;
    Ok(text)
}

/// Appends a line and a line feed.
pub(crate) fn push_line(out: &mut Vec<u8>, line: &[u8]) -> Result<(), AllocError>
    ensures { OnOk result (out.new.items ≡ out.old.items ++ line.now ++ 10 ∷ []) }
{
    out.extend_from_slice(line)?;
    out.push(b'\n')?;
    Ok(())
}
