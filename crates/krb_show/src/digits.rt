//! Digits of octets and of numbers.

ghost use Rattle.std.specs.Prelude.{◌≡◌, ◌<◌, ◌+◌, List, [], ◌∷◌, ◌++◌, OnOk};
ghost use Rattle.krb_der_core.specs.Encoding.{IsOctets};
ghost use Rattle.krb_show.specs.Leaves.{digit, hex_octet, hex, two};

use std::alloc::AllocError;

/// A lemma: the elements are octets.
pub fn are_octets(elements: &[u8])
    ensures { IsOctets elements.now }
{}

/// The digit of a number below 16, in ASCII.
fn digit(number: u8) -> u8
    requires { number < 16 }
    ensures { result ≡ digit number }
{
    if number < 10 {
        b'0' + number
    } else {
        87 + number
    }
}

/// Appends the two digits of an octet.
pub fn push_hex_octet(out: &mut Vec<u8>, octet: u8) -> Result<(), AllocError>
    ensures { OnOk result (out.new.items ≡ out.old.items ++ hex_octet octet) }
{
    out.push(digit(octet / 16))?;
    out.push(digit(octet % 16))?;
    Ok(())
}

/// Appends octets, two digits each.
pub fn push_hex(out: &mut Vec<u8>, octets: &[u8]) -> Result<(), AllocError>
    ensures { OnOk result (out.new.items ≡ out.old.items ++ hex octets.now) }
{
    for octet in octets {
        push_hex_octet(out, *octet)?;
    }
    Ok(())
}

/// Appends the two decimal digits of a number below 100.
pub fn push_two(out: &mut Vec<u8>, number: u8) -> Result<(), AllocError>
    requires { number < 100 }
    ensures { OnOk result (out.new.items ≡ out.old.items ++ two number) }
{
    out.push(digit(number / 10))?;
    out.push(digit(number % 10))?;
    Ok(())
}
