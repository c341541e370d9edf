//! Security identifiers as text.

ghost use Rattle.std.specs.Prelude.{◌≡◌, ◌<◌, ◌++◌, [], ◌∷◌, OnOk, IfOk};
ghost use Rattle.krb_pac_contents.specs.Sids.{authority_text, dashed, hex_digit, hex_text, octet_text, sid_text_of};

use crate::{SidView, SubAuthorities};
use std::alloc::{AllocError, Global};

/// The digit of a number below 16, in ASCII, a capital from 10 on.
fn hex_digit(number: u8) -> u8
    requires { number < 16 }
    ensures range { result < 128 }
    ensures value { result ≡ hex_digit number }
{
    if number < 10 {
        b'0' + number
    } else {
        55 + number
    }
}

/// Appends the two digits of an octet.
#[tactic(auto, unfolding(crate::specs::Sids::octet_text))]
fn push_octet(text: &mut String, octet: u8) -> Result<(), AllocError>
    ensures { OnOk result (text.new.bytes.items ≡ text.old.bytes.items ++ octet_text octet) }
{
    text.push(char::from(hex_digit(octet / 16)))?;
    text.push(char::from(hex_digit(octet % 16)))
}

/// Appends the twelve digits of a number of 48 bits.
#[tactic(auto, unfolding(crate::specs::Sids::hex_text))]
fn push_hex(text: &mut String, number: u64) -> Result<(), AllocError>
    ensures { OnOk result (text.new.bytes.items ≡ text.old.bytes.items ++ hex_text number) }
{
    push_octet(text, (number / 0x100_0000_0000 % 256) as u8)?;
    push_octet(text, (number / 0x1_0000_0000 % 256) as u8)?;
    push_octet(text, (number / 0x100_0000 % 256) as u8)?;
    push_octet(text, (number / 0x1_0000 % 256) as u8)?;
    push_octet(text, (number / 0x100 % 256) as u8)?;
    push_octet(text, (number % 256) as u8)
}

/// Appends the authority of an identifier.
fn push_authority(text: &mut String, authority: u64) -> Result<(), AllocError>
    ensures { OnOk result (text.new.bytes.items ≡ text.old.bytes.items ++ authority_text authority) }
{
    if authority < 0x1_0000_0000 {
        write!(text, "{authority}")?;
        return Ok(());
    }
    text.push_str("0x")?;
    push_hex(text, authority)
}

/// Appends numbers in decimal, each after a `-`.
fn push_dashed(text: &mut String, numbers: SubAuthorities) -> Result<(), AllocError>
    ensures { OnOk result (text.new.bytes.items ≡ text.old.bytes.items ++ dashed numbers.entry) }
{
    for number in numbers {
        write!(text, "-{number}")?;
    }
    Ok(())
}

/// A security identifier as text (MS-DTYP 2.4.2.1): `S-1-`, the authority, and for each sub-authority a `-` and the number in decimal.
///
/// The authority is in decimal where it is below 2^32, else `0x` and 12 hexadecimal digits. The ABNF's HEXDIG is any case (RFC 5234, 2.3 and
/// B.1): these are capitals. An identifier with no sub-authority, which the ABNF has not, ends behind the authority. The only error is an
/// allocation failure.
pub fn sid_text(alloc: Global, sid: &SidView) -> Result<String, AllocError>
    ensures { IfOk result (λ text. text.bytes.items ≡ sid_text_of sid.now) }
{
    let mut text = String::from_str(alloc, "S-1-")?;
    push_authority(&mut text, sid.identifier_authority())?;
    push_dashed(&mut text, sid.sub_authorities())?;
    Ok(text)
}
