//! Messages on their way through a proxy.

ghost use Rattle.std.specs.Prelude.{◌≡◌, ◌==◌, ◌++◌, refl, List, ℕ, None, IfOk, IfErr, OnOk};
ghost use Rattle.krb_der.specs.Asn1.{explicit, general_string, integer, octet_string, sequence};
ghost use Rattle.krb_der.specs.Encoding.{optional};
ghost use Rattle.krb_der.specs.FieldErrors.{sequence_error};
ghost use Rattle.krb_der.specs.FieldErrorLaws.{sequence_error_laws};
ghost use Rattle.krb_der.specs.SequenceLaws.{one_value_of, values_of};
ghost use Rattle.krb_der.specs.TlvLaws.{only_tag, tagged_element};
ghost use Rattle.krb_der.specs.Whole.{Answers, NoDevice, ReportsCut};
ghost use Rattle.krb_der_core.specs.Errors.{PrefixError, OrMemory};
ghost use Rattle.krb_der_core.specs.declared.error.Asn1DerError.TheVariants.{OutOfMemory};

use krb_der::composite::{Fields, SEQUENCE, Sequence, read_sequence, write_sequence};
use krb_der::{
    Asn1DerError, Der, DerEncode, DerSequence, ExplicitContextTag0, ExplicitContextTag1,
    ExplicitContextTag2, IntegerAsn1, OctetStringAsn1, Optional, field_refs, to_vec,
};
use krb_types::data_types::KerberosStringAsn1;
use std::alloc::{AllocError, Global};

/// A message to or from a KDC, on its way through a proxy (MS-KKDCP, 2.2.2).
///
/// ```text
/// KDC-PROXY-MESSAGE ::= SEQUENCE {
///     kerb-message   [0] OCTET STRING,
///     target-domain  [1] KERB-REALM OPTIONAL,
///     dclocator-hint [2] INTEGER OPTIONAL
/// }
/// ```
#[derive(Debug, Drop, PartialEq, Eq)]
pub struct KdcProxyMessage {
    /// The message, after its length in four octets.
    pub kerb_message: ExplicitContextTag0<OctetStringAsn1>,
    /// The realm that the message is for.
    pub target_domain: Optional<Option<ExplicitContextTag1<KerberosStringAsn1>>>,
    /// How the proxy is to look for a KDC.
    pub dclocator_hint: Optional<Option<ExplicitContextTag2<IntegerAsn1>>>,
}

impl Sequence for KdcProxyMessage {
    type Fields = (
        ExplicitContextTag0<OctetStringAsn1>,
        Optional<Option<ExplicitContextTag1<KerberosStringAsn1>>>,
        Optional<Option<ExplicitContextTag2<IntegerAsn1>>>,
    );

    ghost fields = { λ v. (v.kerb_message, v.target_domain, v.dclocator_hint) };

    ghost with_fields = { λ f. record { kerb_message = f.0; target_domain = f.1; dclocator_hint = f.2 } };

    fn from_fields((kerb_message, target_domain, dclocator_hint): Self::Fields) -> Self {
        KdcProxyMessage {
            kerb_message,
            target_domain,
            dclocator_hint,
        }
    }
}

impl DerEncode for KdcProxyMessage {
    ghost enc = { λ v. sequence (explicit 0 (octet_string v.kerb_message)
        ++ optional (λ x. explicit 1 (general_string x)) v.target_domain.0 ++ optional (λ x. explicit 2 (integer x)) v.dclocator_hint.0) };

    ghost is_value = { values_of ⟦<Self as Sequence>⟧ ⟦<<Self as Sequence>::Fields as Fields>⟧ };

    ghost first = { λ t. t == 48 };

    ghost is_element = { λ v h. tagged_element 48 _ };

    ghost one_value = { one_value_of ⟦<Self as Sequence>⟧ ⟦<<Self as Sequence>::Fields as Fields>⟧ (λ v. refl) (tt, only_tag 161 _ refl, only_tag 162 _ refl) };

    ghost error = { sequence_error ⟦<<Self as Sequence>::Fields as Fields>⟧ };

    ghost error_laws = { sequence_error_laws ⟦<Self as Sequence>⟧ ⟦<<Self as Sequence>::Fields as Fields>⟧ (tt, only_tag 161 _ refl, only_tag 162 _ refl) };

    fn starts(octet: u8) -> bool {
        octet == SEQUENCE
    }

    fn write(&self, alloc: Global, out: &mut Vec<u8>) -> Result<(), AllocError> {
        write_sequence(
            alloc,
            &field_refs!(self; kerb_message, target_domain, dclocator_hint),
            out,
        )
    }
}

impl Der for KdcProxyMessage {
    fn read_element(alloc: Global, tag: u8, content: &[u8]) -> Result<Self, Asn1DerError> {
        read_sequence(alloc, tag, content)
    }
}

impl DerSequence for KdcProxyMessage {
    ghost is_sequence = { λ v. (_, refl) };
}

impl KdcProxyMessage {
    /// The message whose encoding is at the start of the octets. What follows it is not read.
    ///
    /// A proper prefix of an encoding is `TruncatedData`; on other octets the first error is returned, from the left. `Io` is never
    /// returned.
    pub fn from_raw(alloc: Global, raw: &[u8]) -> Result<KdcProxyMessage, Asn1DerError>
        ensures valid { IfOk result ⟦<KdcProxyMessage as DerEncode>⟧.is_value }
        ensures found { IfOk result (λ v. (rest : List ℕ) × (raw.now ≡ ⟦<KdcProxyMessage as DerEncode>⟧.enc v ++ rest)) }
        ensures reads { (v : KdcProxyMessage) (rest : List ℕ) → ⟦<KdcProxyMessage as DerEncode>⟧.is_value v
            → raw.now ≡ ⟦<KdcProxyMessage as DerEncode>⟧.enc v ++ rest → Answers result v }
        ensures cut { ReportsCut ⟦<KdcProxyMessage as DerEncode>⟧.is_value ⟦<KdcProxyMessage as DerEncode>⟧.enc raw.now result }
        ensures no_device { IfErr result NoDevice }
        ensures first_error { IfErr result (OrMemory (PrefixError ⟦<KdcProxyMessage as DerEncode>⟧.first ⟦<KdcProxyMessage as DerEncode>⟧.error raw.now)) }
    {
        read_prefix(alloc, raw)
    }

    /// A message that holds these octets, and names neither a realm nor how to look for a KDC.
    ///
    /// The only error is `OutOfMemory`.
    pub fn from_raw_kerb_message(
        alloc: Global,
        raw_kerb_message: &[u8],
    ) -> Result<KdcProxyMessage, Asn1DerError>
        ensures { Answers result (record { kerb_message = raw_kerb_message.now; target_domain = record { 0 = None }; dclocator_hint = record { 0 = None } }) }
    {
        let kerb_message = OctetStringAsn1(Vec::from_slice(alloc, raw_kerb_message)?);
        Ok(KdcProxyMessage {
            kerb_message: ExplicitContextTag0::from(kerb_message),
            target_domain: Optional(None),
            dclocator_hint: Optional(None),
        })
    }

    /// The encoding of the message. The only error is `OutOfMemory`.
    pub fn to_vec(&self, alloc: Global) -> Result<Vec<u8>, Asn1DerError>
        ensures ok { IfOk result (λ v. v.items ≡ ⟦<KdcProxyMessage as DerEncode>⟧.enc self.now) }
        ensures valid { OnOk result (⟦<KdcProxyMessage as DerEncode>⟧.is_value self.now) }
        ensures err { IfErr result (λ e. e ≡ OutOfMemory) }
    {
        to_vec(alloc, self)
    }
}

/// The value whose encoding is at the start of the octets, whatever is after it.
fn read_prefix<T: Der>(alloc: Global, octets: &[u8]) -> Result<T, Asn1DerError>
    ensures valid { IfOk result T.is_value }
    ensures found { IfOk result (λ v. (rest : List ℕ) × (octets.now ≡ T.enc v ++ rest)) }
    ensures reads { (v : T) (rest : List ℕ) → T.is_value v → octets.now ≡ T.enc v ++ rest → Answers result v }
    ensures cut { ReportsCut T.is_value T.enc octets.now result }
    ensures no_device { IfErr result NoDevice }
    ensures first_error { IfErr result (OrMemory (PrefixError T.first T.error octets.now)) }
{
    let (value, _) = T::read(alloc, octets)?;
    Ok(value)
}
