//! Credentials that stay with the client.

ghost use Rattle.std.specs.Prelude.{◌==◌, ◌++◌, refl};
ghost use Rattle.krb_der.specs.Asn1.{explicit, octet_string, sequence, sequence_of};
ghost use Rattle.krb_der.specs.Encoding.{optional};
ghost use Rattle.krb_der.specs.FieldErrors.{sequence_error};
ghost use Rattle.krb_der.specs.FieldErrorLaws.{sequence_error_laws};
ghost use Rattle.krb_der.specs.SequenceLaws.{one_value_of, values_of};
ghost use Rattle.krb_der.specs.TlvLaws.{only_tag, tagged_element};

use krb_der::composite::{Fields, SEQUENCE, Sequence, read_sequence, write_sequence};
use krb_der::{
    Asn1DerError, Asn1SequenceOf, Der, DerEncode, DerSequence, ExplicitContextTag0,
    ExplicitContextTag1, OctetStringAsn1, Optional, field_refs,
};
use std::alloc::{AllocError, Global};

/// Credentials of one security package (MS-CSSP, 2.2.1.2.3.1).
///
/// ```text
/// TSRemoteGuardPackageCred ::= SEQUENCE {
///     packageName [0] OCTET STRING,
///     credBuffer  [1] OCTET STRING
/// }
/// ```
#[derive(Debug, Drop, PartialEq, Eq)]
pub struct TsRemoteGuardPackageCred {
    /// The name of the package, in UTF-16, the lower octet first.
    pub package_name: ExplicitContextTag0<OctetStringAsn1>,
    /// The credentials, in the form of the package.
    pub cred_buffer: ExplicitContextTag1<OctetStringAsn1>,
}

impl Sequence for TsRemoteGuardPackageCred {
    type Fields = (
        ExplicitContextTag0<OctetStringAsn1>,
        ExplicitContextTag1<OctetStringAsn1>,
    );

    ghost fields = { λ v. (v.package_name, v.cred_buffer) };

    ghost with_fields = { λ f. record { package_name = f.0; cred_buffer = f.1 } };

    fn from_fields((package_name, cred_buffer): Self::Fields) -> Self {
        TsRemoteGuardPackageCred {
            package_name,
            cred_buffer,
        }
    }
}

impl DerEncode for TsRemoteGuardPackageCred {
    ghost enc = { λ v. sequence (explicit 0 (octet_string v.package_name) ++ explicit 1 (octet_string v.cred_buffer)) };

    ghost is_value = { values_of ⟦<Self as Sequence>⟧ ⟦<<Self as Sequence>::Fields as Fields>⟧ };

    ghost first = { λ t. t == 48 };

    ghost is_element = { λ v h. tagged_element 48 _ };

    ghost one_value = { one_value_of ⟦<Self as Sequence>⟧ ⟦<<Self as Sequence>::Fields as Fields>⟧ (λ v. refl) (tt, tt) };

    ghost error = { sequence_error ⟦<<Self as Sequence>::Fields as Fields>⟧ };

    ghost error_laws = { sequence_error_laws ⟦<Self as Sequence>⟧ ⟦<<Self as Sequence>::Fields as Fields>⟧ (tt, tt) };

    fn starts(octet: u8) -> bool {
        octet == SEQUENCE
    }

    fn write(&self, alloc: Global, out: &mut Vec<u8>) -> Result<(), AllocError> {
        write_sequence(alloc, &field_refs!(self; package_name, cred_buffer), out)
    }
}

impl Der for TsRemoteGuardPackageCred {
    fn read_element(alloc: Global, tag: u8, content: &[u8]) -> Result<Self, Asn1DerError> {
        read_sequence(alloc, tag, content)
    }
}

impl DerSequence for TsRemoteGuardPackageCred {
    ghost is_sequence = { λ v. (_, refl) };
}

/// Credentials that stay with the client, which answers the server's calls for them (MS-CSSP, 2.2.1.2.3).
///
/// ```text
/// TSRemoteGuardCreds ::= SEQUENCE {
///     logonCred         [0] TSRemoteGuardPackageCred,
///     supplementalCreds [1] SEQUENCE OF TSRemoteGuardPackageCred OPTIONAL
/// }
/// ```
#[derive(Debug, Drop, PartialEq, Eq)]
pub struct TsRemoteGuardCreds {
    /// The credentials that the logon takes.
    pub logon_cred: ExplicitContextTag0<TsRemoteGuardPackageCred>,
    /// Those of further packages.
    pub supplemental_creds: Optional<
        Option<ExplicitContextTag1<Asn1SequenceOf<TsRemoteGuardPackageCred>>>,
    >,
}

impl Sequence for TsRemoteGuardCreds {
    type Fields = (
        ExplicitContextTag0<TsRemoteGuardPackageCred>,
        Optional<Option<ExplicitContextTag1<Asn1SequenceOf<TsRemoteGuardPackageCred>>>>,
    );

    ghost fields = { λ v. (v.logon_cred, v.supplemental_creds) };

    ghost with_fields = { λ f. record { logon_cred = f.0; supplemental_creds = f.1 } };

    fn from_fields((logon_cred, supplemental_creds): Self::Fields) -> Self {
        TsRemoteGuardCreds {
            logon_cred,
            supplemental_creds,
        }
    }
}

impl DerEncode for TsRemoteGuardCreds {
    ghost enc = { λ v. sequence (explicit 0 (⟦<TsRemoteGuardPackageCred as DerEncode>⟧.enc v.logon_cred)
        ++ optional (λ x. explicit 1 (sequence_of ⟦<TsRemoteGuardPackageCred as DerEncode>⟧.enc x)) v.supplemental_creds.0) };

    ghost is_value = { values_of ⟦<Self as Sequence>⟧ ⟦<<Self as Sequence>::Fields as Fields>⟧ };

    ghost first = { λ t. t == 48 };

    ghost is_element = { λ v h. tagged_element 48 _ };

    ghost one_value = { one_value_of ⟦<Self as Sequence>⟧ ⟦<<Self as Sequence>::Fields as Fields>⟧ (λ v. refl) (tt, only_tag 161 _ refl) };

    ghost error = { sequence_error ⟦<<Self as Sequence>::Fields as Fields>⟧ };

    ghost error_laws = { sequence_error_laws ⟦<Self as Sequence>⟧ ⟦<<Self as Sequence>::Fields as Fields>⟧ (tt, only_tag 161 _ refl) };

    fn starts(octet: u8) -> bool {
        octet == SEQUENCE
    }

    fn write(&self, alloc: Global, out: &mut Vec<u8>) -> Result<(), AllocError> {
        write_sequence(
            alloc,
            &field_refs!(self; logon_cred, supplemental_creds),
            out,
        )
    }
}

impl Der for TsRemoteGuardCreds {
    fn read_element(alloc: Global, tag: u8, content: &[u8]) -> Result<Self, Asn1DerError> {
        read_sequence(alloc, tag, content)
    }
}

impl DerSequence for TsRemoteGuardCreds {
    ghost is_sequence = { λ v. (_, refl) };
}
