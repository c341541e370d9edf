//! Names that stand beside numbers and flags.

ghost use Rattle.std.specs.Prelude.{◌≡◌, ◌++◌, ◌∷◌, [], List, ℕ, ℤ, pos, Some, All, IfOk, OnOk};
ghost use Rattle.std.specs.Fmt.{decimal};
ghost use Rattle.krb_registry.specs.Names.{table, IsRow};
ghost use Rattle.krb_show.specs.Leaves.{adds_flag, AreFlags, IsFlagName, IsFlagsNote, IsIdentifierNote, IsNote};

use krb_der::BitStringAsn1;
use krb_registry::{Kind, mechanism_name, name};
use krb_types::view::is_set;
use std::alloc::{AllocError, Global};

/// How many flags have names (RFC 4120, 5.2.8).
const FLAGS: u8 = 32;

/// The note of a number of this kind.
pub fn note_of_number(alloc: Global, kind: Option<Kind>, number: i64) -> Result<Vec<u8>, AllocError>
    ensures { IfOk result (λ note. IsNote kind number note.items) }
{
    let mut note = Vec::new(alloc);
    if let Some(kind) = kind {
        if let Some(name) = name(kind, number) {
            note.push(b' ')?;
            note.extend_from_slice(name.as_bytes())?;
        }
    }
    Ok(note)
}

/// The note of an object identifier in dotted numbers.
#[tactic(auto, unfolding(crate::specs::Leaves::IsIdentifierNote))]
pub fn note_of_identifier(alloc: Global, dotted: &str) -> Result<Vec<u8>, AllocError>
    ensures { IfOk result (λ note. IsIdentifierNote dotted.now note.items) }
{
    let mut note = Vec::new(alloc);
    if let Some(name) = mechanism_name(dotted) {
        note.push(b' ')?;
        note.extend_from_slice(name.as_bytes())?;
    }
    Ok(note)
}

/// The name of a flag of this kind, or its number.
fn flag_name(alloc: Global, kind: Kind, bit: u8) -> Result<Vec<u8>, AllocError>
    ensures { IfOk result (λ found. IsFlagName kind bit found.items) }
{
    match name(kind, i64::from(bit)) {
        Some(known) => {
            let mut found = Vec::new(alloc);
            found.extend_from_slice(known.as_bytes())?;
            Ok(found)
        }
        None => {
            let number = format!(in alloc; "{bit}")?;
            Ok(number.into_bytes())
        }
    }
}

/// Appends a blank and the name of a flag.
fn push_flag(note: &mut Vec<u8>, alloc: Global, kind: Kind, bit: u8) -> Result<(), AllocError>
    ensures { OnOk result ((name : List ℕ) × IsFlagName kind bit name × (note.new.items ≡ note.old.items ++ 32 ∷ name)) }
{
    let name = flag_name(alloc, kind, bit)?;
    note.push(b' ')?;
    note.extend_from_slice(name.as_slice())
}

/// Appends a blank and the name of a flag, if it is set.
fn push_if_set(
    note: &mut Vec<u8>,
    alloc: Global,
    kind: Kind,
    flags: &BitStringAsn1,
    bit: u8,
) -> Result<(), AllocError>
    ensures { OnOk result (adds_flag kind flags.now.octets bit note.old.items note.new.items) }
{
    if !is_set(flags, usize::from(bit)) {
        return Ok(());
    }
    push_flag(note, alloc, kind, bit)
}

/// Appends the names of the flags that are set among so many.
#[tactic(auto, unfolding(crate::specs::Leaves::AreFlags))]
fn push_flags(
    note: &mut Vec<u8>,
    alloc: Global,
    kind: Kind,
    flags: &BitStringAsn1,
    count: u8,
) -> Result<(), AllocError>
    ensures { note.old.items ≡ [] → OnOk result (AreFlags kind flags.now.octets count note.new.items) }
{
    for bit in 0..count {
        push_if_set(note, alloc, kind, flags, bit)?;
    }
    Ok(())
}

/// The note of flags of this kind.
pub fn note_of_flags(
    alloc: Global,
    kind: Option<Kind>,
    flags: &BitStringAsn1,
) -> Result<Vec<u8>, AllocError>
    ensures { IfOk result (λ note. IsFlagsNote kind flags.now.octets note.items) }
{
    let mut note = Vec::new(alloc);
    if let Some(kind) = kind {
        push_flags(&mut note, alloc, kind, flags, FLAGS)?;
    }
    Ok(note)
}
