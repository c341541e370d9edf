//! PEM (RFC 7468).

ghost use Rattle.std.specs.Prelude.{◌≡◌};
ghost use Rattle.std.specs.Option.{option_copied};
ghost use Rattle.krb_input.specs.Pem.{before_rule, between_lines, from_rule};

use crate::blanks::skip_blanks;
use crate::words::after_text;

/// The first five hyphens in a row and what follows them.
fn from_rule(octets: &[u8]) -> &[u8]
    ensures { result.now ≡ from_rule octets.now }
{
    let mut rest = octets;
    while let Some((_first, behind)) = rest.split_first() {
        if after_text(b"-----", rest).is_some() {
            return rest;
        }
        rest = behind;
    }
    rest
}

/// What stands before the first five hyphens in a row.
#[tactic(auto, using(crate::proofs::Rules::before_by_length, crate::proofs::Rules::from_is_no_longer))]
fn before_rule(octets: &[u8]) -> &[u8]
    ensures { result.now ≡ before_rule octets.now }
{
    &octets[..octets.len() - from_rule(octets).len()]
}

/// What stands between the two lines of PEM (RFC 7468, 3), behind the words `-----BEGIN ` of the first. A label has no five hyphens in a row,
/// the two labels may differ, and only blanks may follow the second line. `None` where there are no such lines.
pub fn between_lines(octets: &[u8]) -> Option<&[u8]>
    ensures { option_copied result ≡ between_lines octets.now }
{
    let body = after_text(b"-----", from_rule(octets))?;
    let closing = after_text(b"-----END ", from_rule(body))?;
    let rest = after_text(b"-----", from_rule(closing))?;
    if skip_blanks(rest).is_empty() {
        Some(before_rule(body))
    } else {
        None
    }
}
