//! KRB-ERROR.

ghost use Rattle.std.specs.Prelude.{◌≡◌, pos, None, IfOk, IfErr};
ghost use Rattle.krb_types.specs.Times.{unix_seconds};
ghost use Rattle.krb_build.specs.Times.{IsTimeAt, IsTimeError};

use super::field;
use super::known::{known_name, known_octet_string, known_text};
use crate::error::BuildError;
use crate::times::time_of_unix_microseconds;
use krb_der::{
    ApplicationTag, DerEncode, ExplicitContextTag0, ExplicitContextTag1, ExplicitContextTag4,
    ExplicitContextTag5, ExplicitContextTag6, ExplicitContextTag9, ExplicitContextTag10,
    IntegerAsn1, OctetStringAsn1, Optional,
};
use krb_messages::messages::{KrbError, KrbErrorInner};
use krb_registry::types::KRB_ERROR_MSG_TYPE;
use krb_types::data_types::{KerberosStringAsn1, PrincipalName, Realm};
use std::alloc::Global;

/// What a server or a KDC tells of an error (RFC 4120, 5.9.1).
#[derive(Drop)]
pub struct ErrorParts {
    /// The error code (RFC 4120, 7.5.9).
    pub code: u32,
    /// The time of the server, in seconds since 1 January 1970.
    pub seconds: i64,
    /// The microseconds of this time, 0 to 999999.
    pub microseconds: u32,
    /// The realm of the server.
    pub realm: Realm,
    /// The name of the server.
    pub sname: PrincipalName,
    /// A text that explains the error.
    pub text: Option<KerberosStringAsn1>,
    /// Data about the error, whose form depends on the code.
    pub data: Option<OctetStringAsn1>,
}

/// The KRB-ERROR of these parts (RFC 4120, 5.9.1), without a word of the client. `Microseconds` where there are more than 999999 of them;
/// else `Time` where the year of the time is not of 0 to 9999.
pub fn krb_error(alloc: Global, parts: ErrorParts) -> Result<KrbError, BuildError>
    ensures protocol { IfOk result (λ m. (m.pvno ≡ pos 5) × (m.msg_type ≡ pos 30)) }
    ensures time { IfOk result (λ m. IsTimeAt parts.seconds parts.microseconds m.stime m.susec) }
    ensures code { IfOk result (λ m. m.error_code ≡ parts.code) }
    ensures server { IfOk result (λ m. (m.realm ≡ parts.realm) × (m.sname ≡ parts.sname)) }
    ensures about { IfOk result (λ m. (m.e_text.0 ≡ parts.text) × (m.e_data.0 ≡ parts.«data»)) }
    ensures no_client { IfOk result (λ m. (m.ctime.0 ≡ None) × (m.cusec.0 ≡ None) × (m.crealm.0 ≡ None) × (m.cname.0 ≡ None)) }
    ensures value { IfOk result ⟦<KrbError as DerEncode>⟧.is_value }
    ensures rejected { IfErr result (IsTimeError parts.seconds parts.microseconds) }
{
    parts.realm.is_ascii();
    known_name(&parts.sname);
    known_text(&parts.text);
    known_octet_string(&parts.data);
    match time_of_unix_microseconds(alloc, parts.seconds, parts.microseconds) {
        Ok((stime, susec)) => Ok(ApplicationTag(KrbErrorInner {
            pvno: ExplicitContextTag0::from(IntegerAsn1::from_u32(alloc, 5)),
            msg_type: ExplicitContextTag1::from(IntegerAsn1::from_u32(
                alloc,
                u32::from(KRB_ERROR_MSG_TYPE),
            )),
            ctime: Optional(None),
            cusec: Optional(None),
            stime: ExplicitContextTag4::from(stime),
            susec: ExplicitContextTag5::from(susec),
            error_code: ExplicitContextTag6::from(parts.code),
            crealm: Optional(None),
            cname: Optional(None),
            realm: ExplicitContextTag9::from(parts.realm),
            sname: ExplicitContextTag10::from(parts.sname),
            e_text: field(parts.text),
            e_data: field(parts.data),
        })),
        Err(error) => {
            drop(parts);
            Err(error)
        }
    }
}
