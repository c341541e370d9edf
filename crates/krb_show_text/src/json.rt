//! Pages as JSON (RFC 8259).

ghost use Rattle.std.specs.Prelude.{◌≡◌, ℕ, Bool, List, [], ◌∷◌, ◌++◌, codes, Some, true, IfOk, OnOk};
ghost use Rattle.std.specs.List.{flat_map};
ghost use Rattle.std.specs.String.{string_bytes};
ghost use Rattle.krb_show_text.specs.Json.{begins, ends, json_before, json_flags, json_identifier, json_key, json_name, json_names, json_number, json_token, json_tokens, json_line, json_value, name_octet};
ghost use Rattle.krb_show.specs.Leaves.{hex};
ghost use Rattle.krb_show_text.specs.Text.{ArePrintable};

use crate::characters::push_text;
use crate::escape::{Style, push_escaped, push_escaped_octet, push_quoted};
use krb_show::{Form, Token, are_octets, push_hex};
use std::alloc::{AllocError, Global};

/// Appends an octet of names: a blank ends a name and begins the next.
fn push_name_octet(out: &mut Vec<u8>, octet: u8) -> Result<(), AllocError>
    ensures { OnOk result (out.new.items ≡ out.old.items ++ name_octet octet) }
{
    if octet == b' ' {
        return out.extend_from_slice(b"\",\"");
    }
    push_escaped_octet(out, Style::Json, octet)
}

/// Appends names with blanks between them.
fn push_name_octets(out: &mut Vec<u8>, names: &[u8]) -> Result<(), AllocError>
    ensures { OnOk result (out.new.items ≡ out.old.items ++ flat_map name_octet names.now) }
{
    for octet in names {
        push_name_octet(out, *octet)?;
    }
    Ok(())
}

/// Appends an array of the names of a note.
fn push_names(out: &mut Vec<u8>, note: &[u8]) -> Result<(), AllocError>
    ensures { OnOk result (out.new.items ≡ out.old.items ++ json_names note.now) }
{
    match note {
        [] => out.extend_from_slice(b"[]"),
        [_blank, names @ ..] => {
            out.extend_from_slice(b"[\"")?;
            push_name_octets(out, names)?;
            out.extend_from_slice(b"\"]")
        }
    }
}

/// Appends the name of a note, or null.
fn push_name(out: &mut Vec<u8>, note: &[u8]) -> Result<(), AllocError>
    ensures { OnOk result (out.new.items ≡ out.old.items ++ json_name note.now) }
{
    match note {
        [] => out.extend_from_slice(b"null"),
        [_blank, name @ ..] => push_quoted(out, Style::Json, name),
    }
}

/// Appends a number, with its name where its kind has names.
fn push_number(out: &mut Vec<u8>, token: &Token) -> Result<(), AllocError>
    ensures { OnOk result (out.new.items ≡ out.old.items ++ json_number token.now.label.kind token.now) }
{
    if token.kind().is_none() {
        return push_escaped(out, Style::Json, token.octets());
    }
    out.extend_from_slice(b"{\"number\":")?;
    push_escaped(out, Style::Json, token.octets())?;
    out.extend_from_slice(b",\"name\":")?;
    push_name(out, token.note())?;
    out.extend_from_slice(b"}")
}

/// Appends flags, with their names where their kind has names.
fn push_flags(out: &mut Vec<u8>, token: &Token) -> Result<(), AllocError>
    ensures { OnOk result (out.new.items ≡ out.old.items ++ json_flags token.now.label.kind token.now) }
{
    if token.kind().is_none() {
        return push_quoted(out, Style::Json, token.octets());
    }
    out.extend_from_slice(b"{\"flags\":")?;
    push_quoted(out, Style::Json, token.octets())?;
    out.extend_from_slice(b",\"names\":")?;
    push_names(out, token.note())?;
    out.extend_from_slice(b"}")
}

/// Appends an object identifier and its name.
fn push_identifier(out: &mut Vec<u8>, token: &Token) -> Result<(), AllocError>
    ensures { OnOk result (out.new.items ≡ out.old.items ++ json_identifier token.now) }
{
    out.extend_from_slice(b"{\"identifier\":")?;
    push_quoted(out, Style::Json, token.octets())?;
    out.extend_from_slice(b",\"name\":")?;
    push_name(out, token.note())?;
    out.extend_from_slice(b"}")
}

/// Appends octets as a string of their digits.
fn push_octets(out: &mut Vec<u8>, octets: &[u8]) -> Result<(), AllocError>
    ensures { OnOk result (out.new.items ≡ out.old.items ++ 34 ∷ hex octets.now ++ 34 ∷ []) }
{
    out.push(b'"')?;
    push_hex(out, octets)?;
    out.push(b'"')?;
    Ok(())
}

/// Appends what stands behind the key of a token.
pub(crate) fn push_value(out: &mut Vec<u8>, token: &Token) -> Result<(), AllocError>
    ensures { OnOk result (out.new.items ≡ out.old.items ++ json_value token.now.form token.now) }
{
    match token.form() {
        Form::Struct => out.extend_from_slice(b"{"),
        Form::StructEnd => out.extend_from_slice(b"}"),
        Form::List => out.extend_from_slice(b"["),
        Form::ListEnd => out.extend_from_slice(b"]"),
        Form::Number => push_number(out, token),
        Form::Flags => push_flags(out, token),
        Form::Word => push_quoted(out, Style::Json, token.octets()),
        Form::Identifier => push_identifier(out, token),
        Form::Text => push_text(out, token.octets()),
        Form::Octets | Form::Secret | Form::Cipher => push_octets(out, token.octets()),
    }
}

/// Whether a struct or a list ends here.
pub(crate) fn ends(form: Form) -> bool
    ensures { result ≡ ends form }
{
    match form {
        Form::StructEnd => true,
        Form::ListEnd => true,
        _ => false,
    }
}

/// Whether a struct or a list begins here.
pub(crate) fn begins(form: Form) -> bool
    ensures { result ≡ begins form }
{
    match form {
        Form::Struct => true,
        Form::List => true,
        _ => false,
    }
}

/// Appends the key of a value, if it has one.
fn push_key(out: &mut Vec<u8>, token: &Token) -> Result<(), AllocError>
    ensures { OnOk result (out.new.items ≡ out.old.items ++ json_key token.now.label) }
{
    if token.is_item() {
        return Ok(());
    }
    push_quoted(out, Style::Json, token.text())?;
    out.push(b':')?;
    Ok(())
}

/// Appends what stands before a value.
pub(crate) fn push_before(out: &mut Vec<u8>, first: bool, token: &Token) -> Result<(), AllocError>
    ensures { OnOk result (out.new.items ≡ out.old.items ++ json_before first token.now) }
{
    if ends(token.form()) {
        return Ok(());
    }
    if !first {
        out.push(b',')?;
    }
    push_key(out, token)
}

/// A lemma: what a token adds is printable.
#[tactic(auto, using(crate::proofs::PrintableJson::printable_json_token))]
fn is_printable_in_json(token: &Token)
    ensures { (first : Bool) → ArePrintable (json_token first token.now) }
{
    are_octets(token.text());
    are_octets(token.octets());
    are_octets(token.note());
}

/// Appends a token.
fn push_token(out: &mut Vec<u8>, first: bool, token: &Token) -> Result<(), AllocError>
    ensures ok { OnOk result (out.new.items ≡ out.old.items ++ json_token first token.now) }
    ensures printable { OnOk result (ArePrintable (json_token first token.now)) }
{
    is_printable_in_json(token);
    push_before(out, first, token)?;
    push_value(out, token)
}

/// Appends the tokens of a page.
fn push_tokens(out: &mut Vec<u8>, page: &[Token]) -> Result<(), AllocError>
    ensures ok { OnOk result (out.new.items ≡ out.old.items ++ json_tokens true page.now) }
    ensures printable { OnOk result (ArePrintable (json_tokens true page.now)) }
{
    let mut first = true;
    for token in page {
        push_token(out, first, token)?;
        first = begins(token.form());
    }
    Ok(())
}

/// The octets of a page as JSON.
#[tactic(auto, using(crate::proofs::PrintableJson::printable_line_of))]
fn json_octets(alloc: Global, page: &[Token]) -> Result<Vec<u8>, AllocError>
    ensures json { IfOk result (λ json. json.items ≡ json_line page.now ++ 10 ∷ []) }
    ensures printable { OnOk result (ArePrintable (json_line page.now)) }
{
    let mut out = Vec::new(alloc);
    out.push(b'{')?;
    push_tokens(&mut out, page)?;
    out.push(b'}')?;
    out.push(b'\n')?;
    Ok(out)
}

/// A page as JSON (RFC 8259): an object whose one member is the page's value, on one line. A struct
/// is an object, a list an array; octets are a string of hexadecimal digits. A text is a string of
/// its characters if its octets are UTF-8; else each octet is the character of its number. What may
/// have a name is an object with `number` and `name`, `flags` and `names` or `identifier` and
/// `name`. All of it is printable ASCII, with a line feed at its end.
#[tactic(auto, using(crate::proofs::PrintableJson::json_is_utf8))]
pub fn json_of_page(alloc: Global, page: &[Token]) -> Result<String, AllocError>
    ensures json { IfOk result (λ json. string_bytes json ≡ json_line page.now ++ 10 ∷ []) }
    ensures printable { OnOk result (ArePrintable (json_line page.now)) }
{
    let octets = json_octets(alloc, page)?;
    match String::from_utf8(octets) {
        Ok(json) => Ok(json),
        Err(_) => unreachable!(),
    }
}
