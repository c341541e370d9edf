//! Fields of HTTP that hold credentials or a challenge (RFC 9110, 11.6 and 11.7).

ghost use Rattle.std.specs.Prelude.{◌≡◌};
ghost use Rattle.std.specs.Option.{option_copied};
ghost use Rattle.krb_input.specs.Headers.{after_blank, after_name, after_scheme, behind_scheme};

use crate::blanks::{is_blank, skip_blanks};
use crate::words::after_word;

/// What follows the name of a field that holds credentials or a challenge, and its colon.
fn after_name(octets: &[u8]) -> Option<&[u8]>
    ensures { option_copied result ≡ after_name octets.now }
{
    if let Some(rest) = after_word(b"authorization:", octets) {
        return Some(rest);
    }
    if let Some(rest) = after_word(b"www-authenticate:", octets) {
        return Some(rest);
    }
    if let Some(rest) = after_word(b"proxy-authorization:", octets) {
        return Some(rest);
    }
    after_word(b"proxy-authenticate:", octets)
}

/// What follows a blank.
fn after_blank(octets: &[u8]) -> Option<&[u8]>
    ensures { option_copied result ≡ after_blank octets.now }
{
    let (first, rest) = octets.split_first()?;
    if is_blank(*first) { Some(rest) } else { None }
}

/// What follows a scheme and a blank.
fn after_scheme(octets: &[u8]) -> Option<&[u8]>
    ensures { option_copied result ≡ after_scheme octets.now }
{
    if let Some(rest) = after_word(b"negotiate", octets) {
        return after_blank(rest);
    }
    after_blank(after_word(b"kerberos", octets)?)
}

/// What follows the scheme `Negotiate` (RFC 4559, 4) or `Kerberos` and a blank, where these are at the start, or behind the name of a field:
/// `Authorization`, `WWW-Authenticate`, `Proxy-Authorization` or `Proxy-Authenticate`. Letters are of either case.
pub fn behind_scheme(octets: &[u8]) -> Option<&[u8]>
    ensures { option_copied result ≡ behind_scheme octets.now }
{
    match after_name(octets) {
        Some(rest) => after_scheme(skip_blanks(rest)),
        None => after_scheme(skip_blanks(octets)),
    }
}
