//! The encrypted part of a KRB-PRIV.

ghost use Rattle.std.specs.Prelude.{◌==◌, ◌++◌, refl};
ghost use Rattle.krb_der.specs.Asn1.{explicit, generalized_time, integer, octet_string, sequence};
ghost use Rattle.krb_der.specs.Encoding.{optional};
ghost use Rattle.krb_der.specs.FieldErrors.{sequence_error};
ghost use Rattle.krb_der.specs.FieldErrorLaws.{sequence_error_laws};
ghost use Rattle.krb_der.specs.SequenceLaws.{one_value_of, values_of};
ghost use Rattle.krb_der.specs.TlvLaws.{only_tag, tagged_element};

use krb_der::composite::{Fields, SEQUENCE, Sequence, read_sequence, write_sequence};
use krb_der::{
    ApplicationTag, Asn1DerError, Der, DerEncode, DerSequence, ExplicitContextTag0,
    ExplicitContextTag1, ExplicitContextTag2, ExplicitContextTag3, ExplicitContextTag4,
    ExplicitContextTag5, IntegerAsn1, OctetStringAsn1, Optional, field_refs,
};
use krb_registry::types::KRB_PRIV_ENC_PART;
use krb_types::data_types::{HostAddress, KerberosTime, Microseconds};
use std::alloc::{AllocError, Global};

/// What the encrypted part of a KRB-PRIV holds (RFC 4120, 5.7.1).
///
/// ```text
/// SEQUENCE {
///     user-data  [0] OCTET STRING,
///     timestamp  [1] KerberosTime OPTIONAL,
///     usec       [2] Microseconds OPTIONAL,
///     seq-number [3] UInt32 OPTIONAL,
///     s-address  [4] HostAddress,
///     r-address  [5] HostAddress OPTIONAL
/// }
/// ```
#[derive(Debug, Drop, PartialEq, Eq)]
pub struct EncKrbPrivPartInner {
    /// The data of the sender.
    pub user_data: ExplicitContextTag0<OctetStringAsn1>,
    /// The time of the sender.
    pub timestamp: Optional<Option<ExplicitContextTag1<KerberosTime>>>,
    /// Its microseconds.
    pub usec: Optional<Option<ExplicitContextTag2<Microseconds>>>,
    /// The number of the message.
    pub seq_number: Optional<Option<ExplicitContextTag3<IntegerAsn1>>>,
    /// The address of the sender.
    pub s_address: ExplicitContextTag4<HostAddress>,
    /// The address of the recipient.
    pub r_address: Optional<Option<ExplicitContextTag5<HostAddress>>>,
}

impl Sequence for EncKrbPrivPartInner {
    type Fields = (
        ExplicitContextTag0<OctetStringAsn1>,
        Optional<Option<ExplicitContextTag1<KerberosTime>>>,
        Optional<Option<ExplicitContextTag2<Microseconds>>>,
        Optional<Option<ExplicitContextTag3<IntegerAsn1>>>,
        ExplicitContextTag4<HostAddress>,
        Optional<Option<ExplicitContextTag5<HostAddress>>>,
    );

    ghost fields = { λ v. (v.user_data, v.timestamp, v.usec, v.seq_number, v.s_address, v.r_address) };

    ghost with_fields = { λ f. record { user_data = f.0; timestamp = f.1; usec = f.2; seq_number = f.3; s_address = f.4; r_address = f.5 } };

    fn from_fields(
        (user_data, timestamp, usec, seq_number, s_address, r_address): Self::Fields,
    ) -> Self {
        EncKrbPrivPartInner {
            user_data,
            timestamp,
            usec,
            seq_number,
            s_address,
            r_address,
        }
    }
}

impl DerEncode for EncKrbPrivPartInner {
    ghost enc = { λ v. sequence (explicit 0 (octet_string v.user_data) ++ optional (λ x. explicit 1 (generalized_time x)) v.timestamp.0
        ++ optional (λ x. explicit 2 (integer x)) v.usec.0 ++ optional (λ x. explicit 3 (integer x)) v.seq_number.0
        ++ explicit 4 (⟦<HostAddress as DerEncode>⟧.enc v.s_address)
        ++ optional (λ x. explicit 5 (⟦<HostAddress as DerEncode>⟧.enc x)) v.r_address.0) };

    ghost is_value = { values_of ⟦<Self as Sequence>⟧ ⟦<<Self as Sequence>::Fields as Fields>⟧ };

    ghost first = { λ t. t == 48 };

    ghost is_element = { λ v h. tagged_element 48 _ };

    ghost one_value = { one_value_of ⟦<Self as Sequence>⟧ ⟦<<Self as Sequence>::Fields as Fields>⟧ (λ v. refl)
        (tt, only_tag 161 _ refl, only_tag 162 _ refl, only_tag 163 _ refl, tt, only_tag 165 _ refl) };

    ghost error = { sequence_error ⟦<<Self as Sequence>::Fields as Fields>⟧ };

    ghost error_laws = { sequence_error_laws ⟦<Self as Sequence>⟧ ⟦<<Self as Sequence>::Fields as Fields>⟧
        (tt, only_tag 161 _ refl, only_tag 162 _ refl, only_tag 163 _ refl, tt, only_tag 165 _ refl) };

    fn starts(octet: u8) -> bool {
        octet == SEQUENCE
    }

    fn write(&self, alloc: Global, out: &mut Vec<u8>) -> Result<(), AllocError> {
        write_sequence(
            alloc,
            &field_refs!(self; user_data, timestamp, usec, seq_number, s_address, r_address),
            out,
        )
    }
}

impl Der for EncKrbPrivPartInner {
    fn read_element(alloc: Global, tag: u8, content: &[u8]) -> Result<Self, Asn1DerError> {
        read_sequence(alloc, tag, content)
    }
}

impl DerSequence for EncKrbPrivPartInner {
    ghost is_sequence = { λ v. (_, refl) };
}

/// The encrypted part of a KRB-PRIV (RFC 4120, 5.7.1).
///
/// ```text
/// EncKrbPrivPart ::= [APPLICATION 28] SEQUENCE {
///     -- the fields of EncKrbPrivPartInner
/// }
/// ```
pub type EncKrbPrivPart = ApplicationTag<EncKrbPrivPartInner, KRB_PRIV_ENC_PART>;
