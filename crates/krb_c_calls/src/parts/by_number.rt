//! Messages checked by number.

ghost use Rattle.std.specs.Prelude.{◌≡◌, ℕ, Some};
ghost use Rattle.krb_c_calls.specs.RowReadings.{IsRowChecked, IsRowReading, type_name};
ghost use Rattle.krb_schema.specs.Named.{row_in};
ghost use Rattle.krb_schema.specs.Types.{types};

use crate::CallError;
use crate::call_error::DONE;
use crate::items::WalkRefusal;
use crate::parts::kind::{MessageKind, kind_of};
use krb_encoding_check::check_encoding;
use krb_schema::kerberos::kerberos;
use krb_schema::{Name, Role, row_named};

/// What its standard calls a type.
fn name_of(kind: MessageKind) -> &'static str
    ensures { result.now ≡ type_name kind }
{
    match kind {
        MessageKind::Ticket => "Ticket",
        MessageKind::Authenticator => "Authenticator",
        MessageKind::EncTicketPart => "EncTicketPart",
        MessageKind::AsReq => "AS-REQ",
        MessageKind::AsRep => "AS-REP",
        MessageKind::TgsReq => "TGS-REQ",
        MessageKind::TgsRep => "TGS-REP",
        MessageKind::ApReq => "AP-REQ",
        MessageKind::ApRep => "AP-REP",
        MessageKind::KrbPriv => "KRB-PRIV",
        MessageKind::KrbCred => "KRB-CRED",
        MessageKind::EncAsRepPart => "EncASRepPart",
        MessageKind::EncTgsRepPart => "EncTGSRepPart",
        MessageKind::EncApRepPart => "EncAPRepPart",
        MessageKind::EncKrbPrivPart => "EncKrbPrivPart",
        MessageKind::EncKrbCredPart => "EncKrbCredPart",
        MessageKind::KrbError => "KRB-ERROR",
    }
}

/// Whether the octets are one element of the row of this name, which the table has. 0 where they are; else the status of their first fault.
fn read_by_row(text: &'static str, octets: &[u8]) -> u32
    requires { (row : ℕ) × (row_in types text.now ≡ Some row) }
    ensures { IsRowReading text.now octets.now result }
{
    let Some(row) = row_named(text) else {
        return CallError::Never.status();
    };
    let name = Name {
        text,
        registry: None,
        role: Role::None,
    };
    match check_encoding(&kerberos(), row, name, octets) {
        Ok(()) => DONE,
        Err(fault) => WalkRefusal::from(fault).refusal.status(),
    }
}

/// Whether the octets are one element of the row of the message that has this application tag (RFC 4120, 5.10), with nothing allocated. 0 where they are; 3
/// where the table has no such type; else the status of their first fault: 9, 10 or 11 of its error.
pub fn check(number: i32, octets: &[u8]) -> u32
    ensures { IsRowChecked number octets.now result }
{
    match kind_of(number) {
        Some(kind) => read_by_row(name_of(kind), octets),
        None => CallError::Number.status(),
    }
}
