//! Warnings: what is legal DER in octets that are checked, and breaks a rule of its standard.

ghost use Rattle.std.specs.Prelude.{◌≡◌, IfOk};
ghost use Rattle.std.specs.List.{flat_map};
ghost use Rattle.jolmurig.specs.Warnings.{AreWarnings, warning_of};

use crate::calls::Calls;
use krb_schema::Item;
use krb_show_any::{Kind, name_of_kind};
use std::alloc::{AllocError, Global};

/// The line of an item that breaks a rule.
fn warning_of(alloc: Global, kind: Kind, item: Item) -> Result<Vec<u8>, AllocError>
    ensures { IfOk result (λ line. line.items ≡ warning_of kind item) }
{
    let text = krb_show_any::warning_of(alloc, item)?;
    let mut line = Vec::new(alloc);
    line.extend_from_slice(b"jolmurig: warning: ")?;
    line.extend_from_slice(name_of_kind(kind).as_bytes())?;
    line.extend_from_slice(b": ")?;
    line.extend_from_slice(&text)?;
    line.push(b'\n')?;
    Ok(line)
}

/// The lines of items that break a rule.
fn lines_of(alloc: Global, kind: Kind, items: &[Item]) -> Result<Vec<u8>, AllocError>
    ensures { IfOk result (λ lines. lines.items ≡ flat_map (warning_of kind) items.now) }
{
    let mut lines = Vec::new(alloc);
    'items: for item in items {
        let line = warning_of(alloc, kind, *item)?;
        lines.extend_from_slice(&line)?;
    }
    Ok(lines)
}

/// The lines of what octets of a kind have in them that breaks a rule of its standard.
pub fn warnings_of<C: Calls>(
    alloc: Global,
    kind: Kind,
    octets: &[u8],
) -> Result<Vec<u8>, AllocError>
    ensures { IfOk result (λ lines. AreWarnings C.breaks kind octets.now lines.items) }
{
    let items = C::broken(alloc, kind, octets)?;
    lines_of(alloc, kind, &items)
}
