//! Encrypted messages of an application.

ghost use Rattle.std.specs.Prelude.{◌==◌, ◌++◌, refl};
ghost use Rattle.krb_der.specs.Asn1.{explicit, integer, sequence};
ghost use Rattle.krb_der.specs.FieldErrors.{sequence_error};
ghost use Rattle.krb_der.specs.FieldErrorLaws.{sequence_error_laws};
ghost use Rattle.krb_der.specs.SequenceLaws.{one_value_of, values_of};
ghost use Rattle.krb_der.specs.TlvLaws.{tagged_element};

use krb_der::composite::{Fields, SEQUENCE, Sequence, read_sequence, write_sequence};
use krb_der::{
    ApplicationTag, Asn1DerError, Der, DerEncode, DerSequence, ExplicitContextTag0,
    ExplicitContextTag1, ExplicitContextTag3, IntegerAsn1, field_refs,
};
use krb_registry::types::KRB_PRIV;
use krb_types::data_types::EncryptedData;
use std::alloc::{AllocError, Global};

/// What a KRB-PRIV holds (RFC 4120, 5.7.1). No field has the tag 2.
///
/// ```text
/// SEQUENCE {
///     pvno     [0] INTEGER (5),
///     msg-type [1] INTEGER (21),
///     enc-part [3] EncryptedData
/// }
/// ```
#[derive(Debug, Drop, PartialEq, Eq)]
pub struct KrbPrivInner {
    /// The version of the protocol.
    pub pvno: ExplicitContextTag0<IntegerAsn1>,
    /// The type of the message.
    pub msg_type: ExplicitContextTag1<IntegerAsn1>,
    /// The encrypted `EncKrbPrivPart`.
    pub enc_part: ExplicitContextTag3<EncryptedData>,
}

impl Sequence for KrbPrivInner {
    type Fields = (
        ExplicitContextTag0<IntegerAsn1>,
        ExplicitContextTag1<IntegerAsn1>,
        ExplicitContextTag3<EncryptedData>,
    );

    ghost fields = { λ v. (v.pvno, v.msg_type, v.enc_part) };

    ghost with_fields = { λ f. record { pvno = f.0; msg_type = f.1; enc_part = f.2 } };

    fn from_fields((pvno, msg_type, enc_part): Self::Fields) -> Self {
        KrbPrivInner {
            pvno,
            msg_type,
            enc_part,
        }
    }
}

impl DerEncode for KrbPrivInner {
    ghost enc = { λ v. sequence (explicit 0 (integer v.pvno) ++ explicit 1 (integer v.msg_type)
        ++ explicit 3 (⟦<EncryptedData as DerEncode>⟧.enc v.enc_part)) };

    ghost is_value = { values_of ⟦<Self as Sequence>⟧ ⟦<<Self as Sequence>::Fields as Fields>⟧ };

    ghost first = { λ t. t == 48 };

    ghost is_element = { λ v h. tagged_element 48 _ };

    ghost one_value = { one_value_of ⟦<Self as Sequence>⟧ ⟦<<Self as Sequence>::Fields as Fields>⟧ (λ v. refl) (tt, tt, tt) };

    ghost error = { sequence_error ⟦<<Self as Sequence>::Fields as Fields>⟧ };

    ghost error_laws = { sequence_error_laws ⟦<Self as Sequence>⟧ ⟦<<Self as Sequence>::Fields as Fields>⟧ (tt, tt, tt) };

    fn starts(octet: u8) -> bool {
        octet == SEQUENCE
    }

    fn write(&self, alloc: Global, out: &mut Vec<u8>) -> Result<(), AllocError> {
        write_sequence(alloc, &field_refs!(self; pvno, msg_type, enc_part), out)
    }
}

impl Der for KrbPrivInner {
    fn read_element(alloc: Global, tag: u8, content: &[u8]) -> Result<Self, Asn1DerError> {
        read_sequence(alloc, tag, content)
    }
}

impl DerSequence for KrbPrivInner {
    ghost is_sequence = { λ v. (_, refl) };
}

/// A message of the application that is encrypted (RFC 4120, 5.7.1).
///
/// ```text
/// KRB-PRIV ::= [APPLICATION 21] SEQUENCE {
///     -- the fields of KrbPrivInner
/// }
/// ```
pub type KrbPriv = ApplicationTag<KrbPrivInner, KRB_PRIV>;
