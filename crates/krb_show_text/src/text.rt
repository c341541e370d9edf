//! Pages as indented lines.

ghost use Rattle.std.specs.Prelude.{◌≡◌, ◌<◌, ◌+◌, ◌-◌, ◌^◌, ℕ, List, [], ◌∷◌, ◌++◌, codes, IfOk, OnOk};
ghost use Rattle.std.specs.String.{string_bytes};
ghost use Rattle.krb_der_core.specs.Encoding.{IsOctets};
ghost use Rattle.krb_show_text.specs.Text.{AreLines, ArePrintable, escaped, depth_after, indent, line, lines_of, octets_text, page_lines, page_text, spaced_hex, text_of_lines, value_text, word_text};
ghost use Rattle.krb_show_text.specs.declared.escape.Style.TheVariants as style;

use crate::escape::{Style, push_escaped, push_quoted};
use krb_show::{Form, Token, are_octets, push_hex};
use std::alloc::{AllocError, Global};

/// Appends two spaces for each level.
fn push_indent(out: &mut Vec<u8>, depth: usize) -> Result<(), AllocError>
    ensures { OnOk result (out.new.items ≡ out.old.items ++ indent depth) }
{
    for _level in 0..depth {
        out.extend_from_slice(b"  ")?;
    }
    Ok(())
}

/// Appends octets in hexadecimal, behind a blank.
fn push_spaced_hex(out: &mut Vec<u8>, octets: &[u8]) -> Result<(), AllocError>
    ensures { OnOk result (out.new.items ≡ out.old.items ++ spaced_hex octets.now) }
{
    if octets.is_empty() {
        return Ok(());
    }
    out.push(b' ')?;
    push_hex(out, octets)
}

/// Appends how many octets there are, and these in hexadecimal.
fn push_octets(out: &mut Vec<u8>, alloc: Global, octets: &[u8]) -> Result<(), AllocError>
    ensures { OnOk result (out.new.items ≡ out.old.items ++ octets_text octets.now) }
{
    let count = format!(in alloc; "{}", octets.len())?;
    out.extend_from_slice(count.as_bytes())?;
    out.extend_from_slice(b" octets")?;
    push_spaced_hex(out, octets)
}

/// Appends a word and what stands beside it.
fn push_word(out: &mut Vec<u8>, token: &Token) -> Result<(), AllocError>
    ensures { OnOk result (out.new.items ≡ out.old.items ++ codes ": " ++ word_text token.now) }
{
    out.extend_from_slice(b": ")?;
    push_escaped(out, Style::Plain, token.octets())?;
    push_escaped(out, Style::Plain, token.note())
}

/// Appends the number of a list's items.
fn push_count(out: &mut Vec<u8>, token: &Token) -> Result<(), AllocError>
    ensures { OnOk result (out.new.items ≡ out.old.items ++ 91 ∷ escaped style.Plain token.now.octets ++ codes "]:") }
{
    out.push(b'[')?;
    push_escaped(out, Style::Plain, token.octets())?;
    out.extend_from_slice(b"]:")
}

/// Appends what stands behind a name.
fn push_value(out: &mut Vec<u8>, alloc: Global, token: &Token) -> Result<(), AllocError>
    ensures { OnOk result (out.new.items ≡ out.old.items ++ value_text token.now.form token.now) }
{
    match token.form() {
        Form::Struct => out.extend_from_slice(b":"),
        Form::StructEnd => Ok(()),
        Form::List => push_count(out, token),
        Form::ListEnd => Ok(()),
        Form::Number => push_word(out, token),
        Form::Flags => push_word(out, token),
        Form::Word => push_word(out, token),
        Form::Identifier => push_word(out, token),
        Form::Text => {
            out.extend_from_slice(b": ")?;
            push_quoted(out, Style::Quoted, token.octets())
        }
        Form::Octets | Form::Secret | Form::Cipher => {
            out.extend_from_slice(b": ")?;
            push_octets(out, alloc, token.octets())
        }
    }
}

/// Appends a line.
pub(crate) fn push_line_start(
    out: &mut Vec<u8>,
    alloc: Global,
    depth: usize,
    token: &Token,
) -> Result<(), AllocError>
    ensures ok { OnOk result (out.new.items ≡ out.old.items ++ line depth token.now) }
    ensures printable { ArePrintable (line depth token.now) }
{
    has_printable_line(token);
    push_indent(out, depth)?;
    push_escaped(out, Style::Name, token.text())?;
    push_value(out, alloc, token)
}

/// Appends a line and a line feed.
fn push_line(
    out: &mut Vec<u8>,
    alloc: Global,
    depth: usize,
    token: &Token,
) -> Result<(), AllocError>
    ensures ok { OnOk result (out.new.items ≡ out.old.items ++ line depth token.now ++ 10 ∷ []) }
    ensures printable { ArePrintable (line depth token.now) }
{
    push_line_start(out, alloc, depth, token)?;
    out.push(b'\n')?;
    Ok(())
}

/// A lemma: the line of a token is printable, however far in it is.
#[tactic(auto, using(crate::proofs::Printable::printable_line))]
fn has_printable_line(token: &Token)
    ensures { (depth : ℕ) → ArePrintable (line depth token.now) }
{
    are_octets(token.text());
    are_octets(token.octets());
    are_octets(token.note());
}

/// How far in the next token is.
pub(crate) fn depth_after(depth: usize, form: Form) -> usize
    requires { depth + 1 < 2 ^ 64 }
    ensures { result ≡ depth_after depth form }
{
    match form {
        Form::Struct => depth + 1,
        Form::StructEnd => depth.saturating_sub(1),
        Form::List => depth + 1,
        Form::ListEnd => depth.saturating_sub(1),
        Form::Number => depth,
        Form::Flags => depth,
        Form::Word => depth,
        Form::Identifier => depth,
        Form::Text => depth,
        Form::Octets => depth,
        Form::Secret => depth,
        Form::Cipher => depth,
    }
}

/// Appends the line of a token, unless it is an end.
fn push_lines(
    out: &mut Vec<u8>,
    alloc: Global,
    depth: usize,
    token: &Token,
) -> Result<(), AllocError>
    ensures ok { OnOk result (out.new.items ≡ out.old.items ++ text_of_lines (lines_of depth token.now.form token.now)) }
    ensures printable { OnOk result (AreLines (lines_of depth token.now.form token.now)) }
{
    match token.form() {
        Form::StructEnd => Ok(()),
        Form::ListEnd => Ok(()),
        Form::Struct => push_line(out, alloc, depth, token),
        Form::List => push_line(out, alloc, depth, token),
        Form::Number => push_line(out, alloc, depth, token),
        Form::Flags => push_line(out, alloc, depth, token),
        Form::Word => push_line(out, alloc, depth, token),
        Form::Identifier => push_line(out, alloc, depth, token),
        Form::Text => push_line(out, alloc, depth, token),
        Form::Octets => push_line(out, alloc, depth, token),
        Form::Secret => push_line(out, alloc, depth, token),
        Form::Cipher => push_line(out, alloc, depth, token),
    }
}

/// The octets of a page's text.
fn text_octets(alloc: Global, page: &[Token]) -> Result<Vec<u8>, AllocError>
    ensures text { IfOk result (λ text. text.items ≡ page_text page.now) }
    ensures lines { OnOk result (AreLines (page_lines 0 page.now)) }
{
    let mut out = Vec::new(alloc);
    let mut depth = 0;
    for token in page {
        push_lines(&mut out, alloc, depth, token)?;
        depth = depth_after(depth, token.form());
    }
    Ok(out)
}

/// The text of a page: a line for each value, two spaces further in for each struct and list that it is in. All of it is printable
/// ASCII, with a line feed at the end of each line and nowhere else.
#[tactic(auto, using(crate::proofs::Printable::text_is_utf8))]
pub fn text_of_page(alloc: Global, page: &[Token]) -> Result<String, AllocError>
    ensures text { IfOk result (λ text. string_bytes text ≡ page_text page.now) }
    ensures lines { OnOk result (AreLines (page_lines 0 page.now)) }
{
    let octets = text_octets(alloc, page)?;
    match String::from_utf8(octets) {
        Ok(text) => Ok(text),
        Err(_) => unreachable!(),
    }
}
