//! Octets as printable ASCII.

ghost use Rattle.std.specs.Prelude.{◌≡◌, Bool, List, ◌∷◌, [], ◌++◌, OnOk, codes, nat_eq, ◌||◌, if◌then◌else◌};
ghost use Rattle.krb_show.specs.Leaves.{hex_octet};
ghost use Rattle.krb_show_text.specs.Text.{escaped, escaped_octet, is_printable, itself_or, quoted};

use krb_show::push_hex_octet;
use std::alloc::AllocError;

/// Where octets are written, and so which of them are escaped.
#[derive(Clone, Copy, PartialEq, Eq)]
pub enum Style {
    /// On a line, as a word: what is not printable is `\xNN`.
    Plain,
    /// At the start of a line, as a name: so are the blank, `:` and `\`.
    Name,
    /// In quotation marks: as `Plain`, and `"` and `\` stand behind a `\`.
    Quoted,
    /// In a string of JSON (RFC 8259, 7): as `Quoted`, but what is not printable is `\u00NN`.
    Json,
}

/// Whether an octet is printable ASCII.
fn is_printable(octet: u8) -> bool
    ensures { result ≡ is_printable octet }
{
    32 <= octet && octet <= 126
}

/// Appends an octet: itself, or its two digits behind these.
fn push_itself_or(out: &mut Vec<u8>, before: &[u8], octet: u8) -> Result<(), AllocError>
    ensures { OnOk result (out.new.items ≡ out.old.items ++ itself_or before.now octet) }
{
    if is_printable(octet) {
        out.push(octet)?;
        return Ok(());
    }
    push_behind(out, before, octet)
}

/// Appends these octets and the two digits of one.
fn push_behind(out: &mut Vec<u8>, before: &[u8], octet: u8) -> Result<(), AllocError>
    ensures { OnOk result (out.new.items ≡ out.old.items ++ before.now ++ hex_octet octet) }
{
    out.extend_from_slice(before)?;
    push_hex_octet(out, octet)
}

/// Appends an octet as a style has it.
pub fn push_escaped_octet(out: &mut Vec<u8>, style: Style, octet: u8) -> Result<(), AllocError>
    ensures { OnOk result (out.new.items ≡ out.old.items ++ escaped_octet style octet) }
{
    match style {
        Style::Plain => push_itself_or(out, b"\\x", octet),
        Style::Name => match octet {
            b' ' | b':' | b'\\' => push_behind(out, b"\\x", octet),
            _ => push_itself_or(out, b"\\x", octet),
        },
        Style::Quoted => push_in_quotation(out, b"\\x", octet),
        Style::Json => push_in_quotation(out, b"\\u00", octet),
    }
}

/// Appends an octet between quotation marks.
fn push_in_quotation(out: &mut Vec<u8>, before: &[u8], octet: u8) -> Result<(), AllocError>
    ensures { OnOk result (out.new.items ≡ out.old.items ++ (if nat_eq octet 34 || nat_eq octet 92 then 92 ∷ octet ∷ [] else itself_or before.now octet)) }
{
    if octet == b'"' || octet == b'\\' {
        out.push(b'\\')?;
        out.push(octet)?;
        return Ok(());
    }
    push_itself_or(out, before, octet)
}

/// Appends octets as a style has them.
pub fn push_escaped(out: &mut Vec<u8>, style: Style, octets: &[u8]) -> Result<(), AllocError>
    ensures { OnOk result (out.new.items ≡ out.old.items ++ escaped style octets.now) }
{
    for octet in octets {
        push_escaped_octet(out, style, *octet)?;
    }
    Ok(())
}

/// Appends octets in quotation marks.
pub fn push_quoted(out: &mut Vec<u8>, style: Style, octets: &[u8]) -> Result<(), AllocError>
    ensures { OnOk result (out.new.items ≡ out.old.items ++ quoted style octets.now) }
{
    out.push(b'"')?;
    push_escaped(out, style, octets)?;
    out.push(b'"')?;
    Ok(())
}
