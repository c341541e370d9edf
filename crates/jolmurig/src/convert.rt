//! Conversions.

ghost use Rattle.std.specs.Prelude.{◌≡◌, ◌⊎◌, ◌++◌, IfOk, IfErr, OnOk};
ghost use Rattle.std.specs.List.{flat_map};
ghost use Rattle.jolmurig.specs.Conversions.{IsConverted, IsUnconverted, failure_of_conversion, note_of};
ghost use Rattle.jolmurig.specs.declared.failure.Failure.TheVariants as failure;

use crate::calls::Calls;
use crate::failure::Failure;
use jolmurig_command::Format;
use krb_file_tools::convert::{ConvertError, Field};
use krb_show_any::{Kind, PageError};
use std::alloc::{AllocError, Global};

/// The first octets of a KRB-CRED, of its part and of a ticket (RFC 4120, 5.10).
const KRB_CRED: u8 = 0x76;

const ENC_KRB_CRED_PART: u8 = 0x7d;

const TICKET: u8 = 0x61;

/// The failure that an error of a conversion is.
fn failure_of_conversion(error: ConvertError) -> Failure<'static>
    ensures { result ≡ failure_of_conversion error }
{
    match error {
        ConvertError::Kirbi(why) => Failure::Octets {
            kind: Kind::Application(KRB_CRED),
            why: PageError::Der(why),
            place: None,
        },
        ConvertError::Part(why) => Failure::Octets {
            kind: Kind::Application(ENC_KRB_CRED_PART),
            why: PageError::Der(why),
            place: None,
        },
        ConvertError::Ticket(why) => Failure::Octets {
            kind: Kind::Application(TICKET),
            why: PageError::Der(why),
            place: None,
        },
        ConvertError::Ccache(why) => Failure::Octets {
            kind: Kind::Ccache,
            why: PageError::Ccache(why),
            place: None,
        },
        ConvertError::OutOfMemory => Failure::Memory,
        rule => Failure::Convert(rule),
    }
}

/// Appends the line of what is left out.
fn push_note(field: Field, notes: &mut Vec<u8>) -> Result<(), AllocError>
    ensures { OnOk result (notes.new.items ≡ notes.old.items ++ note_of field) }
{
    notes.extend_from_slice(b"jolmurig: left out: ")?;
    notes.extend_from_slice(field.name().as_bytes())?;
    notes.push(b'\n')?;
    Ok(())
}

/// The lines of what is left out.
fn notes_of(alloc: Global, left_out: &[Field]) -> Result<Vec<u8>, AllocError>
    ensures { IfOk result (λ notes. notes.items ≡ flat_map note_of left_out.now) }
{
    let mut notes = Vec::new(alloc);
    'fields: for field in left_out {
        push_note(*field, &mut notes)?;
    }
    Ok(notes)
}

/// Octets in a format, and the lines of what is left out.
#[derive(Drop)]
pub struct Conversion {
    /// The octets.
    pub octets: Vec<u8>,
    /// The lines.
    pub notes: Vec<u8>,
}

/// Octets in a format.
pub fn conversion_of<C: Calls>(
    alloc: Global,
    to: Format,
    octets: &[u8],
) -> Result<Conversion, Failure<'static>>
    ensures found { IfOk result (λ c. IsConverted C.converts to octets.now c.octets.items c.notes.items) }
    ensures rejected { IfErr result (λ e. (e ≡ failure.Memory) ⊎ IsUnconverted C.unconverted to octets.now e) }
{
    match C::converted(alloc, to, octets) {
        Ok(converted) => {
            let notes = notes_of(alloc, &converted.left_out)?;
            Ok(Conversion {
                octets: converted.octets,
                notes,
            })
        }
        Err(error) => Err(failure_of_conversion(error)),
    }
}
