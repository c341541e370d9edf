//! Principals as text (RFC 1964, 2.1.1): `user/host@REALM`.

ghost use Rattle.std.specs.Prelude.{◌≡◌, ◌≢◌, ◌<◌, ◌≤◌, ℕ, List, [], ◌∷◌, ◌++◌, Option, Some, IfSome, IsSome, IsTrue, MatchOption, ◌↔◌, length, take, drop, IfOk, IfErr, OnOk};
ghost use Rattle.std.specs.List.{AllByRecursion};
ghost use Rattle.std.specs.String.{string_bytes};
ghost use Rattle.std.specs.Str.{IsAscii};
ghost use Rattle.krb_types.specs.Principals.{after_slashes, components_text, HasNoPart, IsEnd, IsMemoryOr, IsNotFirst, IsTextOf, principal_text, quotation, quoted, quoted_octet, realm_text};
ghost use Rattle.krb_types.specs.declared.view.principals.PrincipalError.TheVariants.{InvalidText, OutOfMemory};

use crate::data_types::{PrincipalName, Realm};
use krb_der::GeneralStringAsn1;
use std::alloc::{AllocError, AllocFailed, Global};
use thiserror::Error;

/// Why a text is no principal's.
#[derive(Debug, Clone, Copy, PartialEq, Eq, Error)]
pub enum PrincipalError {
    /// An octet past 127; a line feed, a tabulator, a backspace or a NUL that is written as itself; a `\` before an octet that no quotation
    /// has; or a `/` or `@` in the realm.
    #[error("the text is of no principal")]
    InvalidText,
    /// An allocation failed.
    #[error("memory")]
    OutOfMemory,
}

impl From<AllocError> for PrincipalError {
    ghost from_gives = { λ x e. e ≡ OutOfMemory };

    fn from(_error: AllocError) -> Self {
        PrincipalError::OutOfMemory
    }
}

impl<T: Drop> From<AllocFailed<T>> for PrincipalError {
    ghost from_gives = { λ x e. e ≡ OutOfMemory };

    fn from(_error: AllocFailed<T>) -> Self {
        PrincipalError::OutOfMemory
    }
}

/// What follows a `\` for this octet; `None` where it is written as itself.
fn quotation(octet: u8) -> Option<u8>
    ensures { result ≡ quotation octet }
{
    match octet {
        b'/' | b'@' | b'\\' => Some(octet),
        b'\n' => Some(b'n'),
        b'\t' => Some(b't'),
        8 => Some(b'b'),
        0 => Some(b'0'),
        _ => None,
    }
}

/// The octet that this follows a `\` for, if there is one.
fn quoted_by(letter: u8) -> Option<u8>
    ensures found { IfSome result (λ octet. (octet < 128) × (quotation octet ≡ Some letter)) }
    ensures none { (o : ℕ) → quotation o ≡ Some letter → IsSome result }
{
    match letter {
        b'/' | b'@' | b'\\' => Some(letter),
        b'n' => Some(b'\n'),
        b't' => Some(b'\t'),
        b'b' => Some(8),
        b'0' => Some(0),
        _ => None,
    }
}

/// Appends an octet of ASCII.
fn push_ascii(out: &mut String, octet: u8) -> Result<(), AllocError>
    requires { octet < 128 }
    ensures { OnOk result (string_bytes out.new ≡ string_bytes out.old ++ octet ∷ []) }
{
    out.push(char::from(octet))
}

/// Appends an octet of a component or of a realm.
fn push_quoted_octet(out: &mut String, octet: u8) -> Result<(), AllocError>
    requires { octet < 128 }
    ensures { OnOk result (string_bytes out.new ≡ string_bytes out.old ++ quoted_octet octet) }
{
    match quotation(octet) {
        None => push_ascii(out, octet),
        Some(letter) => {
            push_ascii(out, b'\\')?;
            push_ascii(out, letter)
        }
    }
}

/// Appends a component or a realm.
fn push_quoted(out: &mut String, text: &GeneralStringAsn1) -> Result<(), AllocError>
    ensures { OnOk result (string_bytes out.new ≡ string_bytes out.old ++ quoted text.now) }
{
    text.is_ascii();
    for octet in text.as_str().as_bytes() {
        push_quoted_octet(out, *octet)?;
    }
    Ok(())
}

/// Appends components, each after a `/`.
fn push_after_slashes(out: &mut String, components: &[GeneralStringAsn1]) -> Result<(), AllocError>
    ensures { OnOk result (string_bytes out.new ≡ string_bytes out.old ++ after_slashes components.now) }
{
    for component in components {
        push_ascii(out, b'/')?;
        push_quoted(out, component)?;
    }
    Ok(())
}

/// Appends components, with `/` between them.
fn push_components(out: &mut String, components: &[GeneralStringAsn1]) -> Result<(), AllocError>
    ensures { OnOk result (string_bytes out.new ≡ string_bytes out.old ++ components_text components.now) }
{
    if let [first, rest @ ..] = components {
        push_quoted(out, first)?;
        push_after_slashes(out, rest)?;
    }
    Ok(())
}

/// The components of a principal as text (RFC 1964, 2.1.1), with `/` between them and no realm; escaped as `text_of_principal` has them.
/// None and one empty component are the empty text. The only error is an allocation failure.
pub fn text_of_components(alloc: Global, name: &PrincipalName) -> Result<String, AllocError>
    ensures { IfOk result (λ s. string_bytes s ≡ components_text name.now.name_string) }
{
    let mut out = String::new(alloc);
    push_components(&mut out, name.name_string.0.0.as_slice())?;
    Ok(out)
}

/// A principal as text (RFC 1964, 2.1.1): its components with `/` between them, `@`, and its realm. A `/`, `@` or `\` within one of these is
/// after a `\`, and a line feed, a tabulator, a backspace and a NUL are `\n`, `\t`, `\b` and `\0`. The only error is an allocation failure.
pub fn text_of_principal(
    alloc: Global,
    name: &PrincipalName,
    realm: &Realm,
) -> Result<String, AllocError>
    ensures { IfOk result (λ s. string_bytes s ≡ principal_text name.now.name_string (Some realm.now)) }
{
    let mut out = String::new(alloc);
    push_components(&mut out, name.name_string.0.0.as_slice())?;
    push_ascii(&mut out, b'@')?;
    push_quoted(&mut out, realm)?;
    Ok(out)
}

/// The octet that a text begins with, and how many octets it is written as. `InvalidText` where it begins with none of a component.
fn first_octet(text: &[u8]) -> Result<(u8, usize), PrincipalError>
    ensures within { IfOk result (λ r. (1 ≤ r.1) × (r.1 ≤ length text.now)) }
    ensures octet { IfOk result (λ r. (r.0 < 128) × (take r.1 text.now ≡ quoted_octet r.0)) }
    ensures rejected { IfErr result (λ e. (e ≡ InvalidText) × ((o : ℕ) (rest : List ℕ) → o < 128 → text.now ≢ quoted_octet o ++ rest)) }
{
    match text {
        [b'\\', letter, ..] => match quoted_by(*letter) {
            Some(octet) => Ok((octet, 2)),
            None => Err(PrincipalError::InvalidText),
        },
        [octet, ..] if *octet < 128 && quotation(*octet).is_none() => Ok((*octet, 1)),
        _ => Err(PrincipalError::InvalidText),
    }
}

/// The component or the realm that a text begins with, up to a `/`, a `@` or its end, and how many octets it is written as.
#[tactic(auto, using(crate::proofs::Quoting::no_part))]
fn first_part(alloc: Global, text: &[u8]) -> Result<(GeneralStringAsn1, usize), PrincipalError>
    ensures within { IfOk result (λ r. r.1 ≤ length text.now) }
    ensures part { IfOk result (λ r. take r.1 text.now ≡ quoted r.0) }
    ensures end { IfOk result (λ r. IsEnd (drop r.1 text.now)) }
    ensures ascii { IfOk result (λ r. IsAscii r.0) }
    ensures rejected { IfErr result (λ e. IsMemoryOr e (HasNoPart text.now)) }
{
    let mut part = String::new(alloc);
    let mut taken = 0;
    while !is_end(&text[taken..]) {
        let (octet, count) = first_octet(&text[taken..])?;
        push_ascii(&mut part, octet)?;
        taken += count;
    }
    match GeneralStringAsn1::from_string(part) {
        Ok(part) => Ok((part, taken)),
        Err(_) => Err(PrincipalError::InvalidText),
    }
}

/// Whether a component or a realm ends here: nothing follows, or a `/` or a `@`.
fn is_end(text: &[u8]) -> bool
    ensures { IsTrue result ↔ IsEnd text.now }
{
    match text {
        [] => true,
        [octet, ..] => *octet == b'/' || *octet == b'@',
    }
}

/// What follows the mark that a text begins with; `None` where it begins with another octet, or with none.
fn after_mark(text: &[u8], mark: u8) -> Option<&[u8]>
    ensures { MatchOption result (IsNotFirst mark text.now) (λ rest. text.now ≡ mark ∷ rest.now) }
{
    match text {
        [first, rest @ ..] if *first == mark => Some(rest),
        _ => None,
    }
}

/// The realm after the `@` that a text begins with; `None` of no text. `InvalidText` of any other.
#[tactic(auto, using(crate::proofs::Quoting::no_realm_part, crate::proofs::Quoting::no_long_realm, crate::proofs::Quoting::whole_realm, crate::proofs::Quoting::no_other_mark))]
fn realm_of(alloc: Global, text: &[u8]) -> Result<Option<GeneralStringAsn1>, PrincipalError>
    ensures found { IfOk result (λ r. (text.now ≡ realm_text r) × IfSome r IsAscii) }
    ensures rejected { IfErr result (λ e. IsMemoryOr e ((r : Option (List ℕ)) → IfSome r IsAscii → text.now ≢ realm_text r)) }
{
    if text.is_empty() {
        return Ok(None);
    }
    let Some(rest) = after_mark(text, b'@') else {
        return Err(PrincipalError::InvalidText);
    };
    let (realm, taken) = first_part(alloc, rest)?;
    if taken < rest.len() {
        return Err(PrincipalError::InvalidText);
    }
    Ok(Some(realm))
}

/// A principal that was read from text: its components, and its realm where the text has one.
#[derive(Drop)]
pub struct TextPrincipal {
    /// The components, one or more.
    pub components: Vec<GeneralStringAsn1>,
    /// The realm.
    pub realm: Option<GeneralStringAsn1>,
}

/// The principal that a text is of (RFC 1964, 2.1.1), as `text_of_principal` writes it; a text without `@` has no realm. `InvalidText`
/// where the text is of none: a text is of one at most.
pub fn principal_of_text(alloc: Global, text: &str) -> Result<TextPrincipal, PrincipalError>
    ensures found { IfOk result (λ p. IsTextOf p.components.items p.realm text.now) }
    ensures rejected { IfErr result (λ e. IsMemoryOr e ((components : List (List ℕ)) (realm : Option (List ℕ)) → ¬ IsTextOf components realm text.now)) }
{
    let mut components = Vec::new(alloc);
    let mut rest = text.as_bytes();
    let mut unread = Some(rest);
    while let Some(next) = unread {
        let (component, taken) = first_part(alloc, next)?;
        components.push(component)?;
        rest = &next[taken..];
        unread = after_mark(rest, b'/');
    }
    let realm = realm_of(alloc, rest)?;
    Ok(TextPrincipal { components, realm })
}
