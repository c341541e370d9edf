//! The primitive types, by their names.

use crate::messages::row::{Attempt, Row};
use crate::messages::types::encoded::findings_of;
use krb_der::{
    ApplicationTag, BitStringAsn1, ExplicitContextTag0, GeneralStringAsn1, GeneralizedTimeAsn1,
    IntegerAsn1, OctetStringAsn1, Utf8StringAsn1,
};
use krb_der_x509::{
    Asn1RawDer, ImplicitContextTag0, ImplicitContextTag1, ImplicitContextTag2, ObjectIdentifierAsn1,
};
use krb_types::data_types::KerbPaPacRequest;

/// Reads the octets as a primitive type, tagged or not, of this name, and returns the findings. `None` where no type has the name.
pub fn try_primitive(row: &Row<'_>) -> Attempt {
    Some(match row.name {
        "Asn1RawDer" => findings_of::<Asn1RawDer>(row),
        "BitStringAsn1" => findings_of::<BitStringAsn1>(row),
        "GeneralStringAsn1" => findings_of::<GeneralStringAsn1>(row),
        "GeneralizedTimeAsn1" => findings_of::<GeneralizedTimeAsn1>(row),
        "IntegerAsn1" => findings_of::<IntegerAsn1>(row),
        "ObjectIdentifierAsn1" => findings_of::<ObjectIdentifierAsn1>(row),
        "OctetStringAsn1" => findings_of::<OctetStringAsn1>(row),
        "String" => findings_of::<Utf8StringAsn1>(row),
        "bool" => findings_of::<bool>(row),
        "u32" => findings_of::<u32>(row),
        "ApplicationTag<KerbPaPacRequest, 31>" => findings_of::<
            ApplicationTag<KerbPaPacRequest, 31>,
        >(row),
        "ExplicitContextTag0<IntegerAsn1>" => findings_of::<ExplicitContextTag0<IntegerAsn1>>(row),
        "ImplicitContextTag0<OctetStringAsn1>" => findings_of::<
            ImplicitContextTag0<OctetStringAsn1>,
        >(row),
        "ImplicitContextTag1<BitStringAsn1>" => findings_of::<ImplicitContextTag1<BitStringAsn1>>(
            row,
        ),
        "ImplicitContextTag1<IntegerAsn1>" => findings_of::<ImplicitContextTag1<IntegerAsn1>>(row),
        "ImplicitContextTag2<ObjectIdentifierAsn1>" => findings_of::<
            ImplicitContextTag2<ObjectIdentifierAsn1>,
        >(row),
        _ => return None,
    })
}
