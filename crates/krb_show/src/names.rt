//! What tags are called.

ghost use Rattle.std.specs.Prelude.{◌≡◌, IfOk};
ghost use Rattle.std.specs.String.{string_bytes};
ghost use Rattle.krb_show.specs.Names.{is_text, tag_name, universal_name};

use std::alloc::{AllocError, Global};

/// The name of a type of the universal class by its number (X.680, 8.6, table 1); the number where it has none here.
#[tactic(auto, unfolding(crate::specs::Names::universal_name))]
fn universal_name(alloc: Global, number: u8) -> Result<String, AllocError>
    ensures { IfOk result (λ name. string_bytes name ≡ universal_name number) }
{
    match number {
        1 => "BOOLEAN".to_string(alloc),
        2 => "INTEGER".to_string(alloc),
        3 => "BIT-STRING".to_string(alloc),
        4 => "OCTET-STRING".to_string(alloc),
        5 => "NULL".to_string(alloc),
        6 => "OBJECT-IDENTIFIER".to_string(alloc),
        10 => "ENUMERATED".to_string(alloc),
        12 => "UTF8String".to_string(alloc),
        16 => "SEQUENCE".to_string(alloc),
        17 => "SET".to_string(alloc),
        19 => "PrintableString".to_string(alloc),
        22 => "IA5String".to_string(alloc),
        23 => "UTCTime".to_string(alloc),
        24 => "GeneralizedTime".to_string(alloc),
        27 => "GeneralString".to_string(alloc),
        _ => format!(in alloc; "[UNIVERSAL-{number}]"),
    }
}

/// The name of a tag of one octet (X.690, 8.1.2): of the universal class that of its type, as `SEQUENCE`; else its class and its number,
/// as `[APPLICATION-11]`, and `[2]` of the context-specific class.
#[tactic(auto, unfolding(crate::specs::Names::tag_name))]
pub fn tag_name(alloc: Global, tag: u8) -> Result<String, AllocError>
    ensures { IfOk result (λ name. string_bytes name ≡ tag_name tag) }
{
    let number = tag % 32;
    if tag < 64 {
        universal_name(alloc, number)
    } else if tag < 128 {
        format!(in alloc; "[APPLICATION-{number}]")
    } else if tag < 192 {
        format!(in alloc; "[{number}]")
    } else {
        format!(in alloc; "[PRIVATE-{number}]")
    }
}

/// Whether an element with this tag holds a text.
pub fn is_text(tag: u8) -> bool
    ensures { result ≡ is_text tag }
{
    tag == 12 || tag == 19 || tag == 22 || tag == 23 || tag == 24 || tag == 27
}
