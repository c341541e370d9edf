//! Text in printable ASCII.

ghost use Rattle.std.specs.Prelude.{◌≡◌, ◌++◌, ◌<◌, IfOk, OnOk};
ghost use Rattle.krb_der_core.specs.Encoding.{IsOctets};
ghost use Rattle.krb_accept_report.specs.Texts.{ArePrintable, digit, printed, printed_octet};

use std::alloc::{AllocError, Global};

/// A hexadecimal digit.
fn digit(number: u8) -> u8
    requires { number < 16 }
    ensures { result ≡ digit number }
{
    if number < 10 {
        48 + number
    } else {
        87 + number
    }
}

/// Appends an octet as itself where it is printable, else as its digits behind `\x`.
fn push_printed(out: &mut Vec<u8>, octet: u8) -> Result<(), AllocError>
    ensures { OnOk result (out.new.items ≡ out.old.items ++ printed_octet octet) }
{
    if 32 <= octet && octet <= 126 {
        out.push(octet)?;
        return Ok(());
    }
    out.extend_from_slice(b"\\x")?;
    out.push(digit(octet / 16))?;
    out.push(digit(octet % 16))?;
    Ok(())
}

/// A lemma: the elements are octets.
fn are_octets(elements: &[u8])
    ensures { IsOctets elements.now }
{}

/// A lemma: what is printed is printable.
#[tactic(auto, using(crate::proofs::Printable::printable_text))]
fn is_printable(text: &[u8])
    ensures { ArePrintable (printed text.now) }
{
    are_octets(text);
}

/// A text in printable ASCII.
pub(crate) fn printed(alloc: Global, text: &[u8]) -> Result<Vec<u8>, AllocError>
    ensures text { IfOk result (λ line. line.items ≡ printed text.now) }
    ensures printable { IfOk result (λ line. ArePrintable line.items) }
{
    is_printable(text);
    let mut line = Vec::with_capacity(alloc, text.len())?;
    'octets: for octet in text {
        push_printed(&mut line, *octet)?;
    }
    Ok(line)
}
