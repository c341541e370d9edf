//! Names of numbers, by the numbers that their registries have for C.

ghost use Rattle.std.specs.Prelude.{◌≡◌, ◌≢◌, Some, MatchOption};
ghost use Rattle.krb_c_calls.specs.Handing.{IsAnswered};
ghost use Rattle.krb_c_calls.specs.Items.{HasNoNumberName, IsNumberName, RefusesNumberName, registry_number};
ghost use Rattle.krb_registry.specs.declared.kind.Kind.{Kind};

use crate::call_error::CallError;
use crate::handing::put;
use krb_registry::{Kind, name};

/// The registry of a number.
fn kind_of_number(number: i32) -> Option<Kind>
    ensures { MatchOption result ((kind : Kind) → number ≢ registry_number (Some kind)) (λ kind. number ≡ registry_number (Some kind)) }
{
    match number {
        0 => Some(Kind::EncryptionType),
        1 => Some(Kind::ChecksumType),
        2 => Some(Kind::NameType),
        3 => Some(Kind::MessageType),
        4 => Some(Kind::ErrorCode),
        5 => Some(Kind::PaDataType),
        6 => Some(Kind::AuthorizationDataType),
        7 => Some(Kind::AddressType),
        8 => Some(Kind::TransitedEncodingType),
        9 => Some(Kind::LastRequestType),
        10 => Some(Kind::TicketFlag),
        11 => Some(Kind::KdcOption),
        12 => Some(Kind::ApOption),
        13 => Some(Kind::KeyUsage),
        14 => Some(Kind::PacBufferType),
        15 => Some(Kind::GssFlag),
        16 => Some(Kind::NegotiationState),
        17 => Some(Kind::ContextFlag),
        18 => Some(Kind::TokenFlag),
        _ => None,
    }
}

/// The name of a number in the registry of this number.
fn name_in(registry: i32, number: i64) -> Option<&'static str>
    ensures { MatchOption result (HasNoNumberName registry number) (λ name. IsNumberName registry number name.now) }
{
    let kind = kind_of_number(registry)?;
    name(kind, number)
}

/// The name of a number, or of the flag of this number, in the registry of this number (`ItemRecord`'s `registry`), as its standard
/// spells it; printable ASCII without blanks.
///
/// Status 0 where it is handed out, 1 where it has more octets than `out`; 3 where no registry has the number, or this one has no name for it.
pub fn number_name(registry: i32, number: i64, out: &mut [u8], size: &mut usize) -> u32
    ensures { IsAnswered (IsNumberName registry number) (RefusesNumberName registry number) out.old out.new size.new result }
{
    match name_in(registry, number) {
        Some(name) => put(name.as_bytes(), out, size),
        None => {
            *size = 0;
            CallError::Number.status()
        }
    }
}
