//! The header of an IAKERB message.

ghost use Rattle.std.specs.Prelude.{◌≡◌, ◌==◌, ◌++◌, ◌+◌, ◌<◌, ◌^◌, refl, length, List, ℕ, Option, IfOk, IfErr, IfSome, MatchResult};
ghost use Rattle.krb_der.specs.Asn1.{bit_string, explicit, octet_string, sequence, utf8_string};
ghost use Rattle.krb_der.specs.Encoding.{optional};
ghost use Rattle.krb_der.specs.SequenceLaws.{one_value_of, values_of};
ghost use Rattle.krb_der.specs.TlvLaws.{only_tag, tagged_element};
ghost use Rattle.krb_der.specs.Whole.{Answers, FailsWith, NoDevice};
ghost use Rattle.krb_der_core.specs.declared.error.Asn1DerError.TheVariants.{InvalidData, OutOfMemory, TruncatedData};
ghost use Rattle.krb_der_core.specs.Errors.{OrMemory};
ghost use Rattle.krb_gss_tokens.specs.Header.{HeaderReads};
ghost use Rattle.krb_gss_tokens.specs.HeaderErrors.{IAKerbHeaderError, extensible_error, extensible_error_laws};

use crate::iakerb_header::reading::read_content;
use krb_der::composite::{Fields, SEQUENCE, Sequence, write_sequence};
use krb_der::{
    Asn1DerError, BitStringAsn1, DerEncode, DerSequence, ExplicitContextTag1, ExplicitContextTag2,
    ExplicitContextTag3, OctetStringAsn1, Optional, Utf8StringAsn1, field_refs, to_vec,
};
use krb_der_core::read_tlv;
use std::alloc::{AllocError, Global};

/// A cookie of the server, which a client copies into its next message (draft-ietf-kitten-iakerb-03, 3).
pub type IAKerbCookie = Option<ExplicitContextTag2<OctetStringAsn1>>;

/// The header of an IAKERB message (draft-ietf-kitten-iakerb-03, 3).
///
/// ```text
/// IAKERB-HEADER ::= SEQUENCE {
///     target-realm [1] UTF8String,
///     cookie       [2] OCTET STRING OPTIONAL,
///     flags        [3] BIT STRING OPTIONAL, -- not in the draft, but in real messages
///     ...
/// }
/// ```
///
/// It is extensible: octets after the known fields are ignored, so that a header is read from more than its encoding. So it does not
/// implement `Der`: `IAKerbHeader::from_bytes` reads it.
#[derive(Debug, Drop, PartialEq, Eq)]
pub struct IAKerbHeader {
    /// The realm of the server to which the client connects.
    pub target_realm: ExplicitContextTag1<Utf8StringAsn1>,
    /// The cookie that the server sent last.
    pub cookie: Optional<IAKerbCookie>,
    /// Flags, which no standard defines.
    pub flags: Optional<Option<ExplicitContextTag3<BitStringAsn1>>>,
}

impl Sequence for IAKerbHeader {
    type Fields = (
        ExplicitContextTag1<Utf8StringAsn1>,
        Optional<IAKerbCookie>,
        Optional<Option<ExplicitContextTag3<BitStringAsn1>>>,
    );

    ghost fields = { λ v. (v.target_realm, v.cookie, v.flags) };

    ghost with_fields = { λ f. record { target_realm = f.0; cookie = f.1; flags = f.2 } };

    fn from_fields((target_realm, cookie, flags): Self::Fields) -> Self {
        IAKerbHeader {
            target_realm,
            cookie,
            flags,
        }
    }
}

impl DerEncode for IAKerbHeader {
    ghost enc = { λ v. sequence (explicit 1 (utf8_string v.target_realm) ++ optional (λ x. explicit 2 (octet_string x)) v.cookie.0
        ++ optional (λ x. explicit 3 (bit_string x)) v.flags.0) };

    ghost is_value = { values_of ⟦<Self as Sequence>⟧ ⟦<<Self as Sequence>::Fields as Fields>⟧ };

    ghost first = { λ t. t == 48 };

    ghost is_element = { λ v h. tagged_element 48 _ };

    ghost one_value = { one_value_of ⟦<Self as Sequence>⟧ ⟦<<Self as Sequence>::Fields as Fields>⟧ (λ v. refl) (tt, only_tag 162 _ refl, only_tag 163 _ refl) };

    ghost error = { extensible_error ⟦<<Self as Sequence>::Fields as Fields>⟧ };

    ghost error_laws = { extensible_error_laws ⟦<Self as Sequence>⟧ ⟦<<Self as Sequence>::Fields as Fields>⟧ (tt, only_tag 162 _ refl, only_tag 163 _ refl) };

    fn starts(octet: u8) -> bool {
        octet == SEQUENCE
    }

    fn write(&self, alloc: Global, out: &mut Vec<u8>) -> Result<(), AllocError> {
        write_sequence(alloc, &field_refs!(self; target_realm, cookie, flags), out)
    }
}

impl DerSequence for IAKerbHeader {
    ghost is_sequence = { λ v. (_, refl) };
}

impl IAKerbHeader {
    /// The header as which the whole input is read.
    ///
    /// It is a SEQUENCE of the realm, then the cookie if the next octet is `a2`, then the flags if the next octet is `a3`; all
    /// further octets of the sequence are ignored. A proper prefix of a SEQUENCE is `TruncatedData`; on other octets the
    /// first error is returned, from the left: the tag, the length, the realm, the cookie, the flags, and last `InvalidData` where
    /// octets are left after the SEQUENCE. `Io` is never returned.
    pub fn from_bytes(alloc: Global, octets: &[u8]) -> Result<IAKerbHeader, Asn1DerError>
        ensures valid { IfOk result ⟦<IAKerbHeader as DerEncode>⟧.is_value }
        ensures found { IfOk result (HeaderReads octets.now) }
        ensures reads { (h : IAKerbHeader) → ⟦<IAKerbHeader as DerEncode>⟧.is_value h → HeaderReads octets.now h → Answers result h }
        ensures cut { (content rest : List ℕ) → 0 < length rest → length (sequence content) < 2 ^ 64
            → sequence content ≡ octets.now ++ rest → FailsWith result TruncatedData }
        ensures more { (h : IAKerbHeader) (b rest : List ℕ) → ⟦<IAKerbHeader as DerEncode>⟧.is_value h → HeaderReads b h → 0 < length rest
            → octets.now ≡ b ++ rest → FailsWith result InvalidData }
        ensures no_device { IfErr result NoDevice }
        ensures first_error { IfErr result (OrMemory (IAKerbHeaderError ⟦<IAKerbHeader as DerEncode>⟧ octets.now)) }
    {
        let (content, taken) = read_tlv(SEQUENCE, octets)?;
        let header = read_content(alloc, content)?;
        if taken != octets.len() {
            return Err(Asn1DerError::InvalidData);
        }
        Ok(header)
    }

    /// An equal header. The only error is `OutOfMemory`.
    pub fn clone(&self, alloc: Global) -> Result<IAKerbHeader, Asn1DerError>
        ensures { Answers result self.now }
    {
        let octets = to_vec(alloc, self)?;
        IAKerbHeader::from_bytes(alloc, &octets)
    }
}
