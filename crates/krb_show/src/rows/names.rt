//! Names of principals (RFC 4120, 5.2.2), as one text beside their components.

ghost use Rattle.std.specs.Prelude.{◌≡◌, ◌++◌, ◌∷◌, [], map, IfOk, OnErr, OnOk};
ghost use Rattle.krb_show.specs.Leaves.{name_of};
ghost use Rattle.krb_show.specs.NameTexts.{after_slashes, component_octet, component_text, name_text};
ghost use Rattle.krb_show.specs.Tokens.{Begins};

use crate::token::{Label, Page, push_name};
use std::alloc::{AllocError, Global};

/// Appends an octet of a component.
fn push_component_octet(out: &mut Vec<u8>, octet: u8) -> Result<(), AllocError>
    ensures { OnOk result (out.new.items ≡ out.old.items ++ component_octet octet) }
{
    if octet == b'/' || octet == b'\\' {
        out.push(b'\\')?;
    }
    out.push(octet)?;
    Ok(())
}

/// Appends a component.
fn push_component(out: &mut Vec<u8>, component: &[u8]) -> Result<(), AllocError>
    ensures { OnOk result (out.new.items ≡ out.old.items ++ component_text component.now) }
{
    for octet in component {
        push_component_octet(out, *octet)?;
    }
    Ok(())
}

/// Appends components, each after a `/`.
fn push_after_slashes(out: &mut Vec<u8>, components: &[&[u8]]) -> Result<(), AllocError>
    ensures { OnOk result (out.new.items ≡ out.old.items ++ after_slashes (map (λ c. c.now) components.now)) }
{
    for component in components {
        out.push(b'/')?;
        push_component(out, component)?;
    }
    Ok(())
}

/// The components of a name with `/` between them; a `/` or `\` within one of these stands behind a `\`.
fn text_of_components(alloc: Global, components: &[&[u8]]) -> Result<Vec<u8>, AllocError>
    ensures { IfOk result (λ text. text.items ≡ name_text (map (λ c. c.now) components.now)) }
{
    let mut out = Vec::new(alloc);
    if let [first, rest @ ..] = components {
        push_component(&mut out, first)?;
        push_after_slashes(&mut out, rest)?;
    }
    Ok(out)
}

/// The same components.
fn copies_of(alloc: Global, components: &[&[u8]]) -> Result<Vec<Vec<u8>>, AllocError>
    ensures { IfOk result (λ copies. map (λ c. c.items) copies.items ≡ map (λ c. c.now) components.now) }
{
    let mut copies = Vec::with_capacity(alloc, components.len())?;
    for component in components {
        copies.push(Vec::from_slice(alloc, component)?)?;
    }
    Ok(copies)
}

/// Appends the name of a principal that has these components.
pub(crate) fn show_name(
    alloc: Global,
    label: &Label,
    components: &[&[u8]],
    page: &mut Page,
) -> Result<(), AllocError>
    ensures ok { OnOk result (name_of label.now (map (λ c. c.now) components.now) page.old.items page.new.items) }
    ensures kept { OnOk result (Begins page.old.items page.new.items) }
    ensures err { OnErr result (page.new.items ≡ page.old.items) }
{
    let text = text_of_components(alloc, components)?;
    let copies = copies_of(alloc, components)?;
    push_name(alloc, label, text, copies, page)
}
