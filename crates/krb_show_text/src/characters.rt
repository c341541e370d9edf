//! Texts in strings of JSON (RFC 8259, 7).

ghost use Rattle.std.specs.Prelude.{◌≡◌, ◌∷◌, [], ◌++◌, OnOk};
ghost use Rattle.std.specs.List.{flat_map};
ghost use Rattle.std.specs.Str.{chars};
ghost use Rattle.krb_show_text.specs.Json.{json_character, json_characters, json_text, json_unit};

use crate::escape::{Style, push_escaped, push_escaped_octet};
use krb_show::push_hex_octet;
use std::alloc::AllocError;

/// Appends a unit of UTF-16 by its four digits.
fn push_unit(out: &mut Vec<u8>, unit: u16) -> Result<(), AllocError>
    ensures { OnOk result (out.new.items ≡ out.old.items ++ json_unit unit) }
{
    out.extend_from_slice(b"\\u")?;
    push_hex_octet(out, (unit / 256) as u8)?;
    push_hex_octet(out, (unit % 256) as u8)
}

/// Appends units of UTF-16.
fn push_units(out: &mut Vec<u8>, units: &[u16]) -> Result<(), AllocError>
    ensures { OnOk result (out.new.items ≡ out.old.items ++ flat_map json_unit units.now) }
{
    for unit in units {
        push_unit(out, *unit)?;
    }
    Ok(())
}

/// Appends a character.
fn push_character(out: &mut Vec<u8>, character: char) -> Result<(), AllocError>
    ensures { OnOk result (out.new.items ≡ out.old.items ++ json_character character) }
{
    let code = character as u32;
    if code < 128 {
        return push_escaped_octet(out, Style::Json, code as u8);
    }
    let mut room = [0u16; 2];
    let units = character.encode_utf16(&mut room);
    push_units(out, units)
}

/// Appends the characters of a text.
fn push_characters(out: &mut Vec<u8>, text: &str) -> Result<(), AllocError>
    ensures { OnOk result (out.new.items ≡ out.old.items ++ flat_map json_character (chars text.now)) }
{
    for character in text.chars() {
        push_character(out, character)?;
    }
    Ok(())
}

/// Appends the characters of octets that are UTF-8, and other octets each as the character of its
/// number.
#[tactic(auto, using(crate::proofs::JsonTexts::text_characters, crate::proofs::JsonTexts::other_characters))]
fn push_octets(out: &mut Vec<u8>, octets: &[u8]) -> Result<(), AllocError>
    ensures { OnOk result (out.new.items ≡ out.old.items ++ json_characters octets.now) }
{
    match str::from_utf8(octets) {
        Ok(text) => push_characters(out, text),
        Err(_) => push_escaped(out, Style::Json, octets),
    }
}

/// Appends a text as a string.
pub(crate) fn push_text(out: &mut Vec<u8>, octets: &[u8]) -> Result<(), AllocError>
    ensures { OnOk result (out.new.items ≡ out.old.items ++ json_text octets.now) }
{
    out.push(b'"')?;
    push_octets(out, octets)?;
    out.push(b'"')?;
    Ok(())
}
