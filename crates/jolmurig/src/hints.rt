//! Names that one may have been meant as.

ghost use Rattle.std.specs.Prelude.{◌≡◌, ◌++◌, IfOk, OnOk, map, take};
ghost use Rattle.jolmurig.specs.Hints.{formats, front_of, hint_text, is_mark, is_near, near_names, near_rows, near_text, plain_of};

use krb_show_pages::{applications, named_types};
use std::alloc::{AllocError, Global};

/// The kinds that are no types of DER, and have one name.
static FORMATS: [&str; 6] = [
    "token",
    "PAC",
    "NEGOEX",
    "password-frame",
    "keytab",
    "ccache",
];

/// How many letters and digits names have in common at their front.
const FRONT: usize = 4;

/// Whether an octet is a hyphen or a low line.
fn is_mark(octet: u8) -> bool
    ensures { result ≡ is_mark octet }
{
    octet == b'-' || octet == b'_'
}

/// A name without hyphens and low lines, its letters in lower case.
fn plain_of(alloc: Global, name: &[u8]) -> Result<Vec<u8>, AllocError>
    ensures { IfOk result (λ plain. plain.items ≡ plain_of name.now) }
{
    name.iter()
        .filter(|octet| !is_mark(**octet))
        .map(|octet| octet.to_ascii_lowercase())
        .collect(alloc)
}

/// The first four octets of that.
fn front_of(alloc: Global, name: &[u8]) -> Result<Vec<u8>, AllocError>
    ensures { IfOk result (λ front. front.items ≡ front_of name.now) }
{
    let mut plain = plain_of(alloc, name)?;
    plain.truncate(FRONT);
    Ok(plain)
}

/// Whether a name has this front, of four octets.
fn is_near(alloc: Global, name: &[u8], front: &[u8]) -> Result<bool, AllocError>
    ensures { IfOk result (λ near. near ≡ is_near front.now name.now) }
{
    Ok(front.len() == FRONT && front_of(alloc, name)?.as_slice() == front)
}

/// Appends the names that have this front, each as a question.
fn push_near(
    line: &mut Vec<u8>,
    alloc: Global,
    names: &[&str],
    front: &[u8],
) -> Result<(), AllocError>
    ensures { OnOk result (line.new.items ≡ line.old.items ++ near_text front.now (map (λ name. name.now) names.now)) }
{
    let Some((name, rest)) = names.split_first() else {
        return Ok(());
    };
    if is_near(alloc, name.as_bytes(), front)? {
        line.push(b' ')?;
        line.extend_from_slice(name.as_bytes())?;
        line.push(b'?')?;
    }
    push_near(line, alloc, rest, front)
}

/// Appends the names of rows that have this front, each as a question.
fn push_near_rows(
    line: &mut Vec<u8>,
    alloc: Global,
    rows: &[(u8, &str)],
    front: &[u8],
) -> Result<(), AllocError>
    ensures { OnOk result (line.new.items ≡ line.old.items ++ near_rows front.now (map (λ row. (row.0, row.1.now)) rows.now)) }
{
    let Some((row, rest)) = rows.split_first() else {
        return Ok(());
    };
    if is_near(alloc, row.1.as_bytes(), front)? {
        line.push(b' ')?;
        line.extend_from_slice(row.1.as_bytes())?;
        line.push(b'?')?;
    }
    push_near_rows(line, alloc, rest, front)
}

/// These formats.
#[tactic(auto, unfolding(crate::specs::Hints::formats))]
fn formats() -> &'static [&'static str]
    ensures { map (λ name. name.now) result.now ≡ formats }
{
    &FORMATS
}

/// The names of kinds that a name may have been meant as, each as a question.
fn near_names(alloc: Global, name: &str) -> Result<Vec<u8>, AllocError>
    ensures { IfOk result (λ near. near.items ≡ near_names name.now) }
{
    let front = front_of(alloc, name.as_bytes())?;
    let mut near = Vec::new(alloc);
    push_near_rows(&mut near, alloc, applications(), &front)?;
    push_near(&mut near, alloc, formats(), &front)?;
    push_near(&mut near, alloc, named_types(), &front)?;
    Ok(near)
}

/// Appends what is said of a name that no kind has.
pub fn push_hint(line: &mut Vec<u8>, alloc: Global, name: &str) -> Result<(), AllocError>
    ensures { OnOk result (line.new.items ≡ line.old.items ++ hint_text name.now) }
{
    let near = near_names(alloc, name)?;
    if near.is_empty() {
        return line.extend_from_slice(b"see jolmurig show --help");
    }
    line.extend_from_slice(b"did you mean")?;
    line.extend_from_slice(&near)
}
