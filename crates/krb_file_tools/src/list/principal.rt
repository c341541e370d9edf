//! Principals as text (RFC 1964, 2.1.1), in printable ASCII without blanks.

ghost use Rattle.std.specs.Prelude.{◌≡◌, ◌++◌, ◌∷◌, map, IfOk, OnOk};
ghost use Rattle.krb_der_core.specs.Encoding.{IsOctets};
ghost use Rattle.krb_file_tools.specs.Principals.{after_slashes, components_text, name_octet, name_text, plain_octet, principal_text};
ghost use Rattle.krb_show_text.specs.Text.{ArePrintable};
ghost use Rattle.krb_types.specs.Principals.{quotation};

use crate::components::components_of;
use krb_files::fields::PrincipalView;
use krb_show::push_hex;
use std::alloc::{AllocError, Global};

/// What stands behind a `\` for this octet; `None` where it is not quoted.
fn quotation(octet: u8) -> Option<u8>
    ensures { result ≡ quotation octet }
{
    match octet {
        b'/' | b'@' | b'\\' => Some(octet),
        b'\n' => Some(b'n'),
        b'\t' => Some(b't'),
        8 => Some(b'b'),
        0 => Some(b'0'),
        _ => None,
    }
}

/// Appends an octet as itself, or as its digits.
fn push_plain_octet(out: &mut Vec<u8>, octet: u8) -> Result<(), AllocError>
    ensures { OnOk result (out.new.items ≡ out.old.items ++ plain_octet octet) }
{
    if 33 <= octet && octet <= 126 {
        out.push(octet)?;
        return Ok(());
    }
    out.extend_from_slice(b"\\x")?;
    push_hex(out, &[octet])
}

/// Appends an octet of a component or of a realm.
fn push_name_octet(out: &mut Vec<u8>, octet: u8) -> Result<(), AllocError>
    ensures { OnOk result (out.new.items ≡ out.old.items ++ name_octet octet) }
{
    match quotation(octet) {
        Some(letter) => {
            out.push(b'\\')?;
            out.push(letter)?;
            Ok(())
        }
        None => push_plain_octet(out, octet),
    }
}

/// A lemma: the elements are octets.
fn are_octets(elements: &[u8])
    ensures { IsOctets elements.now }
{}

/// A lemma: the text of a component or of a realm is printable.
#[tactic(auto, using(crate::proofs::Names::printable_name))]
fn has_printable_name(octets: &[u8])
    ensures { ArePrintable (name_text octets.now) }
{
    are_octets(octets);
}

/// Appends a component or a realm.
fn push_name(out: &mut Vec<u8>, octets: &[u8]) -> Result<(), AllocError>
    ensures ok { OnOk result (out.new.items ≡ out.old.items ++ name_text octets.now) }
    ensures printable { ArePrintable (name_text octets.now) }
{
    has_printable_name(octets);
    'octets: for octet in octets {
        push_name_octet(out, *octet)?;
    }
    Ok(())
}

/// Appends components, each behind a `/`.
fn push_after_slashes(out: &mut Vec<u8>, components: &[&[u8]]) -> Result<(), AllocError>
    ensures ok { OnOk result (out.new.items ≡ out.old.items ++ after_slashes (map (λ p. p.now) components.now)) }
    ensures printable { OnOk result (ArePrintable (after_slashes (map (λ p. p.now) components.now))) }
{
    'components: for component in components {
        out.push(b'/')?;
        push_name(out, component)?;
    }
    Ok(())
}

/// Appends components, with `/` between them.
fn push_components(out: &mut Vec<u8>, components: &[&[u8]]) -> Result<(), AllocError>
    ensures ok { OnOk result (out.new.items ≡ out.old.items ++ components_text (map (λ p. p.now) components.now)) }
    ensures printable { OnOk result (ArePrintable (components_text (map (λ p. p.now) components.now))) }
{
    let Some((first, rest)) = components.split_first() else {
        return Ok(());
    };
    push_name(out, first)?;
    push_after_slashes(out, rest)
}

/// A principal of these components and this realm as text.
fn text_of_names(alloc: Global, components: &[&[u8]], realm: &[u8]) -> Result<Vec<u8>, AllocError>
    ensures text { IfOk result (λ text. text.items ≡ components_text (map (λ p. p.now) components.now) ++ 64 ∷ name_text realm.now) }
    ensures printable { IfOk result (λ text. ArePrintable text.items) }
{
    let mut text = Vec::new(alloc);
    push_components(&mut text, components)?;
    text.push(b'@')?;
    push_name(&mut text, realm)?;
    Ok(text)
}

/// A principal as text.
pub(crate) fn text_of_principal(
    alloc: Global,
    principal: &PrincipalView,
) -> Result<Vec<u8>, AllocError>
    ensures text { IfOk result (λ text. text.items ≡ principal_text principal.now) }
    ensures printable { IfOk result (λ text. ArePrintable text.items) }
{
    let components = components_of(alloc, principal.components())?;
    let text = text_of_names(alloc, &components, principal.realm())?;
    Ok(text)
}
