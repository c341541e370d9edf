//! The reply of a KDC to a client with a certificate.

ghost use Rattle.std.specs.Prelude.{◌==◌, ◌||◌};
ghost use Rattle.krb_der.specs.Asn1.{explicit};
ghost use Rattle.krb_der.specs.Choice.{ChoiceError, IsChoice, choice};
ghost use Rattle.krb_der.specs.ChoiceLaws.{choice_element, choice_error_laws, choice_one_value};
ghost use Rattle.krb_der_x509.specs.Implicit.{implicit};
ghost use Rattle.krb_pkinit.specs.Replies.{held, held_decides, tags_apart};

use super::replies::DhRepInfo;
use krb_der::{Asn1DerError, Der, DerEncode, ExplicitContextTag0, OctetStringAsn1};
use krb_der_x509::ImplicitContextTag1;
use std::alloc::{AllocError, Global};

/// The first octet of `DhInfo`: the explicit context tag 0.
const DH_INFO: u8 = 0xa0;

/// The first octet of `EncKeyPack`: the implicit context tag 1 of an OCTET STRING.
const ENC_KEY_PACK: u8 = 0x81;

/// The reply of a KDC to a client with a certificate (RFC 4556, 3.2.3).
///
/// ```text
/// PA-PK-AS-REP ::= CHOICE {
///     dhInfo     [0] DHRepInfo,
///     encKeyPack [1] IMPLICIT OCTET STRING
/// }
/// ```
///
/// The first octet, `a0` or `81`, distinguishes them: any other is `InvalidData`.
#[derive(Debug, Drop, PartialEq, Eq)]
pub enum PaPkAsRep {
    /// The public key of the KDC, where a key is agreed on.
    DhInfo(ExplicitContextTag0<DhRepInfo>),
    /// A key that is encrypted to the client, in CMS (RFC 5652), which is not read further.
    EncKeyPack(ImplicitContextTag1<OctetStringAsn1>),
}

impl DerEncode for PaPkAsRep {
    ghost enc = { λ m. choice (λ v. explicit 0 (⟦<DhRepInfo as DerEncode>⟧.enc v)) (λ v. implicit 1 v) (held m) };

    ghost is_value = { λ m. IsChoice ⟦<ExplicitContextTag0<DhRepInfo> as DerEncode>⟧.is_value
        ⟦<ImplicitContextTag1<OctetStringAsn1> as DerEncode>⟧.is_value (held m) };

    ghost first = { λ t. t == 160 || t == 129 };

    ghost is_element = { λ v h. choice_element 160 129 _ _ (held v) };

    ghost one_value = { choice_one_value 160 129 _ _ tags_apart _ _ ⟦<ExplicitContextTag0<DhRepInfo> as DerEncode>⟧.one_value
        ⟦<ImplicitContextTag1<OctetStringAsn1> as DerEncode>⟧.one_value held held_decides };

    ghost error = { ChoiceError 160 129 ⟦<ExplicitContextTag0<DhRepInfo> as DerEncode>⟧.error ⟦<ImplicitContextTag1<OctetStringAsn1> as DerEncode>⟧.error };

    ghost error_laws = { choice_error_laws 160 129 _ _ tags_apart _ _ _ _ ⟦<ExplicitContextTag0<DhRepInfo> as DerEncode>⟧.error_laws
        ⟦<ImplicitContextTag1<OctetStringAsn1> as DerEncode>⟧.error_laws held };

    fn starts(octet: u8) -> bool {
        octet == DH_INFO || octet == ENC_KEY_PACK
    }

    fn write(&self, alloc: Global, out: &mut Vec<u8>) -> Result<(), AllocError> {
        match self {
            PaPkAsRep::DhInfo(info) => info.write(alloc, out),
            PaPkAsRep::EncKeyPack(pack) => pack.write(alloc, out),
        }
    }
}

impl Der for PaPkAsRep {
    fn read_element(alloc: Global, tag: u8, content: &[u8]) -> Result<Self, Asn1DerError> {
        match tag {
            DH_INFO => {
                Ok(PaPkAsRep::DhInfo(ExplicitContextTag0::read_element(alloc, tag, content)?))
            }
            ENC_KEY_PACK => {
                Ok(PaPkAsRep::EncKeyPack(ImplicitContextTag1::read_element(alloc, tag, content)?))
            }
            _ => Err(Asn1DerError::InvalidData),
        }
    }
}
