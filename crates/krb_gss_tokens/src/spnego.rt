//! SPNEGO (RFC 4178; RFC 2478).

ghost use Rattle.std.specs.Prelude.{◌==◌, ◌++◌, refl};
ghost use Rattle.krb_der.specs.Asn1.{bit_string, explicit, octet_string, sequence, sequence_of};
ghost use Rattle.krb_der.specs.Encoding.{optional};
ghost use Rattle.krb_der.specs.FieldErrors.{sequence_error};
ghost use Rattle.krb_der.specs.FieldErrorLaws.{sequence_error_laws};
ghost use Rattle.krb_der.specs.SequenceLaws.{one_value_of, values_of};
ghost use Rattle.krb_der.specs.TlvLaws.{only_tag, tagged_element};
ghost use Rattle.krb_der_x509.specs.ObjectIdentifier.{object_identifier};

use krb_der::composite::{Fields, SEQUENCE, Sequence, read_sequence, write_sequence};
use krb_der::{
    Asn1DerError, Asn1SequenceOf, BitStringAsn1, Der, DerEncode, DerSequence, ExplicitContextTag0,
    ExplicitContextTag1, ExplicitContextTag2, ExplicitContextTag3, OctetStringAsn1, Optional,
    field_refs,
};
use krb_der_x509::untagged::{Field, FieldRef};
use krb_der_x509::{Asn1RawDer, ObjectIdentifierAsn1};
use std::alloc::{AllocError, Global};

/// A security mechanism (RFC 4178, 4.1).
///
/// ```text
/// MechType ::= OBJECT IDENTIFIER
/// ```
pub type MechType = ObjectIdentifierAsn1;

/// Security mechanisms, the preferred first (RFC 4178, 4.1).
///
/// ```text
/// MechTypeList ::= SEQUENCE OF MechType
/// ```
pub type MechTypeList = Asn1SequenceOf<MechType>;

/// The first message of a negotiation (RFC 4178, 4.2.1).
///
/// ```text
/// NegTokenInit ::= SEQUENCE {
///     mechTypes   [0] MechTypeList OPTIONAL, -- mandatory in the standard; real messages leave it out
///     reqFlags    [1] ContextFlags OPTIONAL,
///     mechToken   [2] OCTET STRING OPTIONAL,
///     mechListMIC [3] OCTET STRING OPTIONAL
/// }
/// ContextFlags ::= BIT STRING
/// ```
#[derive(Debug, Drop, PartialEq, Eq)]
pub struct NegTokenInit {
    /// The mechanisms that the initiator offers.
    pub mech_types: Optional<Option<ExplicitContextTag0<MechTypeList>>>,
    /// The services that it asks for.
    pub req_flags: Optional<Option<ExplicitContextTag1<BitStringAsn1>>>,
    /// The first token of its preferred mechanism.
    pub mech_token: Optional<Option<ExplicitContextTag2<OctetStringAsn1>>>,
    /// A MIC over the list of mechanisms.
    pub mech_list_mic: Optional<Option<ExplicitContextTag3<OctetStringAsn1>>>,
}

impl Sequence for NegTokenInit {
    type Fields = (
        Optional<Option<ExplicitContextTag0<MechTypeList>>>,
        Optional<Option<ExplicitContextTag1<BitStringAsn1>>>,
        Optional<Option<ExplicitContextTag2<OctetStringAsn1>>>,
        Optional<Option<ExplicitContextTag3<OctetStringAsn1>>>,
    );

    ghost fields = { λ v. (v.mech_types, v.req_flags, v.mech_token, v.mech_list_mic) };

    ghost with_fields = { λ f. record { mech_types = f.0; req_flags = f.1; mech_token = f.2; mech_list_mic = f.3 } };

    fn from_fields((mech_types, req_flags, mech_token, mech_list_mic): Self::Fields) -> Self {
        NegTokenInit {
            mech_types,
            req_flags,
            mech_token,
            mech_list_mic,
        }
    }
}

impl DerEncode for NegTokenInit {
    ghost enc = { λ v. sequence (optional (λ x. explicit 0 (sequence_of object_identifier x)) v.mech_types.0
        ++ optional (λ x. explicit 1 (bit_string x)) v.req_flags.0 ++ optional (λ x. explicit 2 (octet_string x)) v.mech_token.0
        ++ optional (λ x. explicit 3 (octet_string x)) v.mech_list_mic.0) };

    ghost is_value = { values_of ⟦<Self as Sequence>⟧ ⟦<<Self as Sequence>::Fields as Fields>⟧ };

    ghost first = { λ t. t == 48 };

    ghost is_element = { λ v h. tagged_element 48 _ };

    ghost one_value = { one_value_of ⟦<Self as Sequence>⟧ ⟦<<Self as Sequence>::Fields as Fields>⟧ (λ v. refl)
        (only_tag 160 _ refl, only_tag 161 _ refl, only_tag 162 _ refl, only_tag 163 _ refl) };

    ghost error = { sequence_error ⟦<<Self as Sequence>::Fields as Fields>⟧ };

    ghost error_laws = { sequence_error_laws ⟦<Self as Sequence>⟧ ⟦<<Self as Sequence>::Fields as Fields>⟧
        (only_tag 160 _ refl, only_tag 161 _ refl, only_tag 162 _ refl, only_tag 163 _ refl) };

    fn starts(octet: u8) -> bool {
        octet == SEQUENCE
    }

    fn write(&self, alloc: Global, out: &mut Vec<u8>) -> Result<(), AllocError> {
        write_sequence(
            alloc,
            &field_refs!(self; mech_types, req_flags, mech_token, mech_list_mic),
            out,
        )
    }
}

impl Der for NegTokenInit {
    fn read_element(alloc: Global, tag: u8, content: &[u8]) -> Result<Self, Asn1DerError> {
        read_sequence(alloc, tag, content)
    }
}

impl DerSequence for NegTokenInit {
    ghost is_sequence = { λ v. (_, refl) };
}

/// A later message of a negotiation (RFC 4178, 4.2.2; `NegTokenTarg` of RFC 2478, 3.2.1).
///
/// ```text
/// NegTokenTarg ::= SEQUENCE {
///     negResult     [0] ENUMERATED   OPTIONAL,
///     supportedMech [1] MechType     OPTIONAL,
///     responseToken [2] OCTET STRING OPTIONAL,
///     mechListMIC   [3] OCTET STRING OPTIONAL
/// }
/// ```
#[derive(Debug, Drop, PartialEq, Eq)]
pub struct NegTokenTarg {
    /// The state of the negotiation: an element, which is not read further. `ACCEPT_COMPLETE` and `ACCEPT_INCOMPLETE` are two.
    pub neg_result: Optional<Option<ExplicitContextTag0<Asn1RawDer>>>,
    /// The mechanism that was chosen.
    pub supported_mech: Optional<Option<ExplicitContextTag1<MechType>>>,
    /// A token of that mechanism.
    pub response_token: Optional<Option<ExplicitContextTag2<OctetStringAsn1>>>,
    /// A MIC over the list of mechanisms.
    pub mech_list_mic: Optional<Option<ExplicitContextTag3<OctetStringAsn1>>>,
}

impl Sequence for NegTokenTarg {
    type Fields = (
        Optional<Option<ExplicitContextTag0<Asn1RawDer>>>,
        Optional<Option<ExplicitContextTag1<MechType>>>,
        Optional<Option<ExplicitContextTag2<OctetStringAsn1>>>,
        Optional<Option<ExplicitContextTag3<OctetStringAsn1>>>,
    );

    ghost fields = { λ v. (v.neg_result, v.supported_mech, v.response_token, v.mech_list_mic) };

    ghost with_fields = { λ f. record { neg_result = f.0; supported_mech = f.1; response_token = f.2; mech_list_mic = f.3 } };

    fn from_fields(
        (neg_result, supported_mech, response_token, mech_list_mic): Self::Fields,
    ) -> Self {
        NegTokenTarg {
            neg_result,
            supported_mech,
            response_token,
            mech_list_mic,
        }
    }
}

impl DerEncode for NegTokenTarg {
    ghost enc = { λ v. sequence (optional (λ x. explicit 0 x) v.neg_result.0
        ++ optional (λ x. explicit 1 (object_identifier x)) v.supported_mech.0
        ++ optional (λ x. explicit 2 (octet_string x)) v.response_token.0 ++ optional (λ x. explicit 3 (octet_string x)) v.mech_list_mic.0) };

    ghost is_value = { values_of ⟦<Self as Sequence>⟧ ⟦<<Self as Sequence>::Fields as Fields>⟧ };

    ghost first = { λ t. t == 48 };

    ghost is_element = { λ v h. tagged_element 48 _ };

    ghost one_value = { one_value_of ⟦<Self as Sequence>⟧ ⟦<<Self as Sequence>::Fields as Fields>⟧ (λ v. refl)
        (only_tag 160 _ refl, only_tag 161 _ refl, only_tag 162 _ refl, only_tag 163 _ refl) };

    ghost error = { sequence_error ⟦<<Self as Sequence>::Fields as Fields>⟧ };

    ghost error_laws = { sequence_error_laws ⟦<Self as Sequence>⟧ ⟦<<Self as Sequence>::Fields as Fields>⟧
        (only_tag 160 _ refl, only_tag 161 _ refl, only_tag 162 _ refl, only_tag 163 _ refl) };

    fn starts(octet: u8) -> bool {
        octet == SEQUENCE
    }

    fn write(&self, alloc: Global, out: &mut Vec<u8>) -> Result<(), AllocError> {
        write_sequence(
            alloc,
            &field_refs!(self; neg_result, supported_mech, response_token, mech_list_mic),
            out,
        )
    }
}

impl Der for NegTokenTarg {
    fn read_element(alloc: Global, tag: u8, content: &[u8]) -> Result<Self, Asn1DerError> {
        read_sequence(alloc, tag, content)
    }
}

impl DerSequence for NegTokenTarg {
    ghost is_sequence = { λ v. (_, refl) };
}

/// A later message of a negotiation as it is sent (RFC 4178, 4.2): `negTokenResp [1]` of the choice `NegotiationToken`.
pub type NegTokenTarg1 = ExplicitContextTag1<NegTokenTarg>;

/// The content of the token that begins a negotiation (RFC 4178, 4.2; RFC 2743, 3.1): it is sent as
/// `ApplicationTag0<GssApiNegInit>`.
///
/// ```text
/// GssApiNegInit ::= SEQUENCE {
///     thisMech     MechType, -- 1.3.6.1.5.5.2, which is not compared
///     negTokenInit [0] NegTokenInit
/// }
/// ```
#[derive(Debug, Drop, PartialEq, Eq)]
pub struct GssApiNegInit {
    /// The mechanism SPNEGO.
    pub oid: ObjectIdentifierAsn1,
    /// The message.
    pub neg_token_init: ExplicitContextTag0<NegTokenInit>,
}

impl Sequence for GssApiNegInit {
    type Fields = (
        Field<ObjectIdentifierAsn1>,
        ExplicitContextTag0<NegTokenInit>,
    );

    ghost fields = { λ v. (v.oid, v.neg_token_init) };

    ghost with_fields = { λ f. record { oid = f.0; neg_token_init = f.1 } };

    fn from_fields((Field(oid), neg_token_init): Self::Fields) -> Self {
        GssApiNegInit {
            oid,
            neg_token_init,
        }
    }
}

impl DerEncode for GssApiNegInit {
    ghost enc = { λ v. sequence (object_identifier v.oid ++ explicit 0 (⟦<NegTokenInit as DerEncode>⟧.enc v.neg_token_init)) };

    ghost is_value = { values_of ⟦<Self as Sequence>⟧ ⟦<<Self as Sequence>::Fields as Fields>⟧ };

    ghost first = { λ t. t == 48 };

    ghost is_element = { λ v h. tagged_element 48 _ };

    ghost one_value = { one_value_of ⟦<Self as Sequence>⟧ ⟦<<Self as Sequence>::Fields as Fields>⟧ (λ v. refl) (tt, tt) };

    ghost error = { sequence_error ⟦<<Self as Sequence>::Fields as Fields>⟧ };

    ghost error_laws = { sequence_error_laws ⟦<Self as Sequence>⟧ ⟦<<Self as Sequence>::Fields as Fields>⟧ (tt, tt) };

    fn starts(octet: u8) -> bool {
        octet == SEQUENCE
    }

    fn write(&self, alloc: Global, out: &mut Vec<u8>) -> Result<(), AllocError> {
        write_sequence(alloc, &(FieldRef(&self.oid), &self.neg_token_init), out)
    }
}

impl Der for GssApiNegInit {
    fn read_element(alloc: Global, tag: u8, content: &[u8]) -> Result<Self, Asn1DerError> {
        read_sequence(alloc, tag, content)
    }
}

impl DerSequence for GssApiNegInit {
    ghost is_sequence = { λ v. (_, refl) };
}
