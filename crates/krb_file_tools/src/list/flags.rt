//! The flags of a ticket as letters.

ghost use Rattle.std.specs.Prelude.{◌≡◌, ◌≤◌, ◌++◌, IfOk, OnOk};
ghost use Rattle.krb_file_tools.specs.Texts.{first_letters, flag_letters, last_letters, letter_of, letters_set};
ghost use Rattle.krb_show_text.specs.Text.{ArePrintable};

use std::alloc::{AllocError, Global};

/// Appends the letter of a bit of 32, where it is set.
fn push_letter(out: &mut Vec<u8>, flags: u32, bit: u8, letter: &[u8]) -> Result<(), AllocError>
    requires { bit ≤ 31 }
    ensures { OnOk result (out.new.items ≡ out.old.items ++ letter_of flags bit letter.now) }
{
    if flags >> (31 - bit) & 1 == 1 {
        out.extend_from_slice(letter)?;
    }
    Ok(())
}

/// Appends the letters of the bits 1 to 7.
fn push_first_letters(out: &mut Vec<u8>, flags: u32) -> Result<(), AllocError>
    ensures { OnOk result (out.new.items ≡ out.old.items ++ letters_set first_letters flags) }
{
    push_letter(out, flags, 1, b"F")?;
    push_letter(out, flags, 2, b"f")?;
    push_letter(out, flags, 3, b"P")?;
    push_letter(out, flags, 4, b"p")?;
    push_letter(out, flags, 5, b"D")?;
    push_letter(out, flags, 6, b"d")?;
    push_letter(out, flags, 7, b"i")
}

/// Appends the letters of the bits from 8 on.
fn push_last_letters(out: &mut Vec<u8>, flags: u32) -> Result<(), AllocError>
    ensures { OnOk result (out.new.items ≡ out.old.items ++ letters_set last_letters flags) }
{
    push_letter(out, flags, 8, b"R")?;
    push_letter(out, flags, 9, b"I")?;
    push_letter(out, flags, 11, b"H")?;
    push_letter(out, flags, 10, b"A")?;
    push_letter(out, flags, 12, b"T")?;
    push_letter(out, flags, 13, b"O")?;
    push_letter(out, flags, 16, b"a")
}

/// The letters of the flags that are set.
#[tactic(auto, using(crate::proofs::Printable::printable_letters))]
pub(crate) fn letters_of(alloc: Global, flags: u32) -> Result<Vec<u8>, AllocError>
    ensures letters { IfOk result (λ letters. letters.items ≡ flag_letters flags) }
    ensures printable { IfOk result (λ letters. ArePrintable letters.items) }
{
    let mut letters = Vec::new(alloc);
    push_first_letters(&mut letters, flags)?;
    push_last_letters(&mut letters, flags)?;
    Ok(letters)
}
