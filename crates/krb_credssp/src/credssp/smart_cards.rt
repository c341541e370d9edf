//! Credentials of smart cards.

ghost use Rattle.std.specs.Prelude.{◌==◌, ◌++◌, refl};
ghost use Rattle.krb_der.specs.Asn1.{explicit, integer, octet_string, sequence};
ghost use Rattle.krb_der.specs.Encoding.{optional};
ghost use Rattle.krb_der.specs.FieldErrors.{sequence_error};
ghost use Rattle.krb_der.specs.FieldErrorLaws.{sequence_error_laws};
ghost use Rattle.krb_der.specs.SequenceLaws.{one_value_of, values_of};
ghost use Rattle.krb_der.specs.TlvLaws.{only_tag, tagged_element};

use krb_der::composite::{Fields, SEQUENCE, Sequence, read_sequence, write_sequence};
use krb_der::{
    Asn1DerError, Der, DerEncode, DerSequence, ExplicitContextTag0, ExplicitContextTag1,
    ExplicitContextTag2, ExplicitContextTag3, ExplicitContextTag4, IntegerAsn1, OctetStringAsn1,
    Optional, field_refs,
};
use std::alloc::{AllocError, Global};

/// Where the key of a smart card is found (MS-CSSP, 2.2.1.2.2.1). The octets are text in UTF-16, the lower octet first.
///
/// ```text
/// TSCspDataDetail ::= SEQUENCE {
///     keySpec       [0] INTEGER,
///     cardName      [1] OCTET STRING OPTIONAL,
///     readerName    [2] OCTET STRING OPTIONAL,
///     containerName [3] OCTET STRING OPTIONAL,
///     cspName       [4] OCTET STRING OPTIONAL
/// }
/// ```
#[derive(Debug, Drop, PartialEq, Eq)]
pub struct TsCspDataDetail {
    /// What the key is for: 1 exchanges keys, 2 signs.
    pub key_spec: ExplicitContextTag0<IntegerAsn1>,
    /// The name of the card.
    pub card_name: Optional<Option<ExplicitContextTag1<OctetStringAsn1>>>,
    /// The name of its reader.
    pub reader_name: Optional<Option<ExplicitContextTag2<OctetStringAsn1>>>,
    /// The name of the container of the key.
    pub container_name: Optional<Option<ExplicitContextTag3<OctetStringAsn1>>>,
    /// The name of the provider of its cryptography.
    pub csp_name: Optional<Option<ExplicitContextTag4<OctetStringAsn1>>>,
}

impl Sequence for TsCspDataDetail {
    type Fields = (
        ExplicitContextTag0<IntegerAsn1>,
        Optional<Option<ExplicitContextTag1<OctetStringAsn1>>>,
        Optional<Option<ExplicitContextTag2<OctetStringAsn1>>>,
        Optional<Option<ExplicitContextTag3<OctetStringAsn1>>>,
        Optional<Option<ExplicitContextTag4<OctetStringAsn1>>>,
    );

    ghost fields = { λ v. (v.key_spec, v.card_name, v.reader_name, v.container_name, v.csp_name) };

    ghost with_fields = { λ f. record { key_spec = f.0; card_name = f.1; reader_name = f.2; container_name = f.3; csp_name = f.4 } };

    fn from_fields(
        (key_spec, card_name, reader_name, container_name, csp_name): Self::Fields,
    ) -> Self {
        TsCspDataDetail {
            key_spec,
            card_name,
            reader_name,
            container_name,
            csp_name,
        }
    }
}

impl DerEncode for TsCspDataDetail {
    ghost enc = { λ v. sequence (explicit 0 (integer v.key_spec) ++ optional (λ x. explicit 1 (octet_string x)) v.card_name.0
        ++ optional (λ x. explicit 2 (octet_string x)) v.reader_name.0 ++ optional (λ x. explicit 3 (octet_string x)) v.container_name.0
        ++ optional (λ x. explicit 4 (octet_string x)) v.csp_name.0) };

    ghost is_value = { values_of ⟦<Self as Sequence>⟧ ⟦<<Self as Sequence>::Fields as Fields>⟧ };

    ghost first = { λ t. t == 48 };

    ghost is_element = { λ v h. tagged_element 48 _ };

    ghost one_value = { one_value_of ⟦<Self as Sequence>⟧ ⟦<<Self as Sequence>::Fields as Fields>⟧ (λ v. refl)
        (tt, only_tag 161 _ refl, only_tag 162 _ refl, only_tag 163 _ refl, only_tag 164 _ refl) };

    ghost error = { sequence_error ⟦<<Self as Sequence>::Fields as Fields>⟧ };

    ghost error_laws = { sequence_error_laws ⟦<Self as Sequence>⟧ ⟦<<Self as Sequence>::Fields as Fields>⟧
        (tt, only_tag 161 _ refl, only_tag 162 _ refl, only_tag 163 _ refl, only_tag 164 _ refl) };

    fn starts(octet: u8) -> bool {
        octet == SEQUENCE
    }

    fn write(&self, alloc: Global, out: &mut Vec<u8>) -> Result<(), AllocError> {
        write_sequence(
            alloc,
            &field_refs!(self; key_spec, card_name, reader_name, container_name, csp_name),
            out,
        )
    }
}

impl Der for TsCspDataDetail {
    fn read_element(alloc: Global, tag: u8, content: &[u8]) -> Result<Self, Asn1DerError> {
        read_sequence(alloc, tag, content)
    }
}

impl DerSequence for TsCspDataDetail {
    ghost is_sequence = { λ v. (_, refl) };
}

/// A smart card and its PIN (MS-CSSP, 2.2.1.2.2). The octets are text in UTF-16, the lower octet first.
///
/// ```text
/// TSSmartCardCreds ::= SEQUENCE {
///     pin        [0] OCTET STRING,
///     cspData    [1] TSCspDataDetail,
///     userHint   [2] OCTET STRING OPTIONAL,
///     domainHint [3] OCTET STRING OPTIONAL
/// }
/// ```
#[derive(Debug, Drop, PartialEq, Eq)]
pub struct TsSmartCardCreds {
    /// The PIN of the card.
    pub pin: ExplicitContextTag0<OctetStringAsn1>,
    /// Where the key is found.
    pub csp_data: ExplicitContextTag1<TsCspDataDetail>,
    /// The account that is meant.
    pub user_hint: Optional<Option<ExplicitContextTag2<OctetStringAsn1>>>,
    /// Its domain.
    pub domain_hint: Optional<Option<ExplicitContextTag3<OctetStringAsn1>>>,
}

impl Sequence for TsSmartCardCreds {
    type Fields = (
        ExplicitContextTag0<OctetStringAsn1>,
        ExplicitContextTag1<TsCspDataDetail>,
        Optional<Option<ExplicitContextTag2<OctetStringAsn1>>>,
        Optional<Option<ExplicitContextTag3<OctetStringAsn1>>>,
    );

    ghost fields = { λ v. (v.pin, v.csp_data, v.user_hint, v.domain_hint) };

    ghost with_fields = { λ f. record { pin = f.0; csp_data = f.1; user_hint = f.2; domain_hint = f.3 } };

    fn from_fields((pin, csp_data, user_hint, domain_hint): Self::Fields) -> Self {
        TsSmartCardCreds {
            pin,
            csp_data,
            user_hint,
            domain_hint,
        }
    }
}

impl DerEncode for TsSmartCardCreds {
    ghost enc = { λ v. sequence (explicit 0 (octet_string v.pin) ++ explicit 1 (⟦<TsCspDataDetail as DerEncode>⟧.enc v.csp_data)
        ++ optional (λ x. explicit 2 (octet_string x)) v.user_hint.0 ++ optional (λ x. explicit 3 (octet_string x)) v.domain_hint.0) };

    ghost is_value = { values_of ⟦<Self as Sequence>⟧ ⟦<<Self as Sequence>::Fields as Fields>⟧ };

    ghost first = { λ t. t == 48 };

    ghost is_element = { λ v h. tagged_element 48 _ };

    ghost one_value = { one_value_of ⟦<Self as Sequence>⟧ ⟦<<Self as Sequence>::Fields as Fields>⟧ (λ v. refl)
        (tt, tt, only_tag 162 _ refl, only_tag 163 _ refl) };

    ghost error = { sequence_error ⟦<<Self as Sequence>::Fields as Fields>⟧ };

    ghost error_laws = { sequence_error_laws ⟦<Self as Sequence>⟧ ⟦<<Self as Sequence>::Fields as Fields>⟧ (tt, tt, only_tag 162 _ refl, only_tag 163 _ refl) };

    fn starts(octet: u8) -> bool {
        octet == SEQUENCE
    }

    fn write(&self, alloc: Global, out: &mut Vec<u8>) -> Result<(), AllocError> {
        write_sequence(
            alloc,
            &field_refs!(self; pin, csp_data, user_hint, domain_hint),
            out,
        )
    }
}

impl Der for TsSmartCardCreds {
    fn read_element(alloc: Global, tag: u8, content: &[u8]) -> Result<Self, Asn1DerError> {
        read_sequence(alloc, tag, content)
    }
}

impl DerSequence for TsSmartCardCreds {
    ghost is_sequence = { λ v. (_, refl) };
}
