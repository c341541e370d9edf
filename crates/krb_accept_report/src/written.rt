//! Numbers and times, written.

ghost use Rattle.std.specs.Prelude.{◌≡◌, ◌++◌, ◌∷◌, [], OnOk};
ghost use Rattle.std.specs.Fmt.{decimal};
ghost use Rattle.krb_der_core.specs.GeneralizedTime.{four_digits, last_digit, two_digits};
ghost use Rattle.krb_accept_report.specs.Texts.{listed, listed_after, time_text};

use krb_der::GeneralizedTimeAsn1;
use std::alloc::{AllocError, Global};

/// Appends the last decimal digit of a number.
fn push_digit(out: &mut Vec<u8>, number: u16) -> Result<(), AllocError>
    ensures { OnOk result (out.new.items ≡ out.old.items ++ last_digit number ∷ []) }
{
    out.push(b'0' + (number % 10) as u8)?;
    Ok(())
}

/// Appends the last two.
fn push_two(out: &mut Vec<u8>, number: u16) -> Result<(), AllocError>
    ensures { OnOk result (out.new.items ≡ out.old.items ++ two_digits number) }
{
    push_digit(out, number / 10)?;
    push_digit(out, number)
}

/// Appends the last four.
fn push_four(out: &mut Vec<u8>, number: u16) -> Result<(), AllocError>
    ensures { OnOk result (out.new.items ≡ out.old.items ++ four_digits number) }
{
    push_digit(out, number / 1000)?;
    push_digit(out, number / 100)?;
    push_two(out, number)
}

/// Appends a mark and two digits.
fn push_marked(out: &mut Vec<u8>, mark: u8, number: u8) -> Result<(), AllocError>
    ensures { OnOk result (out.new.items ≡ out.old.items ++ mark ∷ two_digits number) }
{
    out.push(mark)?;
    push_two(out, u16::from(number))
}

/// Appends a time as YYYY-MM-DDTHH:MM:SSZ.
pub(crate) fn push_time(out: &mut Vec<u8>, time: &GeneralizedTimeAsn1) -> Result<(), AllocError>
    ensures { OnOk result (out.new.items ≡ out.old.items ++ time_text time.now) }
{
    push_four(out, time.year())?;
    push_marked(out, b'-', time.month())?;
    push_marked(out, b'-', time.day())?;
    push_marked(out, b'T', time.hour())?;
    push_marked(out, b':', time.minute())?;
    push_marked(out, b':', time.second())?;
    out.push(b'Z')?;
    Ok(())
}

/// Appends a number in decimal.
pub(crate) fn push_number(out: &mut Vec<u8>, alloc: Global, number: u64) -> Result<(), AllocError>
    ensures { OnOk result (out.new.items ≡ out.old.items ++ decimal number) }
{
    let digits = format!(in alloc; "{number}")?;
    out.extend_from_slice(digits.as_bytes())?;
    Ok(())
}

/// Appends numbers, each behind `, `.
fn push_more(out: &mut Vec<u8>, alloc: Global, numbers: &[u32]) -> Result<(), AllocError>
    ensures { OnOk result (out.new.items ≡ out.old.items ++ listed_after numbers.now) }
{
    'numbers: for number in numbers {
        out.extend_from_slice(b", ")?;
        push_number(out, alloc, u64::from(*number))?;
    }
    Ok(())
}

/// Appends numbers, with `, ` between them.
pub(crate) fn push_list(out: &mut Vec<u8>, alloc: Global, numbers: &[u32]) -> Result<(), AllocError>
    ensures { OnOk result (out.new.items ≡ out.old.items ++ listed numbers.now) }
{
    let Some((first, rest)) = numbers.split_first() else {
        out.extend_from_slice(b"none")?;
        return Ok(());
    };
    push_number(out, alloc, u64::from(*first))?;
    push_more(out, alloc, rest)
}
