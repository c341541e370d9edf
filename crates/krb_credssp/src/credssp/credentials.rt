//! Delegated credentials, and those of a name and a password.

ghost use Rattle.std.specs.Prelude.{◌==◌, ◌++◌, refl};
ghost use Rattle.krb_der.specs.Asn1.{explicit, integer, octet_string, sequence};
ghost use Rattle.krb_der.specs.FieldErrors.{sequence_error};
ghost use Rattle.krb_der.specs.FieldErrorLaws.{sequence_error_laws};
ghost use Rattle.krb_der.specs.SequenceLaws.{one_value_of, values_of};
ghost use Rattle.krb_der.specs.TlvLaws.{tagged_element};

use krb_der::composite::{Fields, SEQUENCE, Sequence, read_sequence, write_sequence};
use krb_der::{
    Asn1DerError, Der, DerEncode, DerSequence, ExplicitContextTag0, ExplicitContextTag1,
    ExplicitContextTag2, IntegerAsn1, OctetStringAsn1, field_refs,
};
use std::alloc::{AllocError, Global};

/// Credentials that are delegated to a server (MS-CSSP, 2.2.1.2).
///
/// ```text
/// TSCredentials ::= SEQUENCE {
///     credType    [0] INTEGER,
///     credentials [1] OCTET STRING
/// }
/// ```
#[derive(Debug, Drop, PartialEq, Eq)]
pub struct TsCredentials {
    /// What `credentials` holds: 1 is a `TsPasswordCreds`, 2 a `TsSmartCardCreds`, 6 a `TsRemoteGuardCreds`.
    pub cred_type: ExplicitContextTag0<IntegerAsn1>,
    /// The encoding of these.
    pub credentials: ExplicitContextTag1<OctetStringAsn1>,
}

impl Sequence for TsCredentials {
    type Fields = (
        ExplicitContextTag0<IntegerAsn1>,
        ExplicitContextTag1<OctetStringAsn1>,
    );

    ghost fields = { λ v. (v.cred_type, v.credentials) };

    ghost with_fields = { λ f. record { cred_type = f.0; credentials = f.1 } };

    fn from_fields((cred_type, credentials): Self::Fields) -> Self {
        TsCredentials {
            cred_type,
            credentials,
        }
    }
}

impl DerEncode for TsCredentials {
    ghost enc = { λ v. sequence (explicit 0 (integer v.cred_type) ++ explicit 1 (octet_string v.credentials)) };

    ghost is_value = { values_of ⟦<Self as Sequence>⟧ ⟦<<Self as Sequence>::Fields as Fields>⟧ };

    ghost first = { λ t. t == 48 };

    ghost is_element = { λ v h. tagged_element 48 _ };

    ghost one_value = { one_value_of ⟦<Self as Sequence>⟧ ⟦<<Self as Sequence>::Fields as Fields>⟧ (λ v. refl) (tt, tt) };

    ghost error = { sequence_error ⟦<<Self as Sequence>::Fields as Fields>⟧ };

    ghost error_laws = { sequence_error_laws ⟦<Self as Sequence>⟧ ⟦<<Self as Sequence>::Fields as Fields>⟧ (tt, tt) };

    fn starts(octet: u8) -> bool {
        octet == SEQUENCE
    }

    fn write(&self, alloc: Global, out: &mut Vec<u8>) -> Result<(), AllocError> {
        write_sequence(alloc, &field_refs!(self; cred_type, credentials), out)
    }
}

impl Der for TsCredentials {
    fn read_element(alloc: Global, tag: u8, content: &[u8]) -> Result<Self, Asn1DerError> {
        read_sequence(alloc, tag, content)
    }
}

impl DerSequence for TsCredentials {
    ghost is_sequence = { λ v. (_, refl) };
}

/// A name and a password (MS-CSSP, 2.2.1.2.1). The octets are text in UTF-16, the lower octet first.
///
/// ```text
/// TSPasswordCreds ::= SEQUENCE {
///     domainName [0] OCTET STRING,
///     userName   [1] OCTET STRING,
///     password   [2] OCTET STRING
/// }
/// ```
#[derive(Debug, Drop, PartialEq, Eq)]
pub struct TsPasswordCreds {
    /// The domain of the user.
    pub domain_name: ExplicitContextTag0<OctetStringAsn1>,
    /// The name of the user.
    pub user_name: ExplicitContextTag1<OctetStringAsn1>,
    /// The password.
    pub password: ExplicitContextTag2<OctetStringAsn1>,
}

impl Sequence for TsPasswordCreds {
    type Fields = (
        ExplicitContextTag0<OctetStringAsn1>,
        ExplicitContextTag1<OctetStringAsn1>,
        ExplicitContextTag2<OctetStringAsn1>,
    );

    ghost fields = { λ v. (v.domain_name, v.user_name, v.password) };

    ghost with_fields = { λ f. record { domain_name = f.0; user_name = f.1; password = f.2 } };

    fn from_fields((domain_name, user_name, password): Self::Fields) -> Self {
        TsPasswordCreds {
            domain_name,
            user_name,
            password,
        }
    }
}

impl DerEncode for TsPasswordCreds {
    ghost enc = { λ v. sequence (explicit 0 (octet_string v.domain_name) ++ explicit 1 (octet_string v.user_name) ++ explicit 2 (octet_string v.password)) };

    ghost is_value = { values_of ⟦<Self as Sequence>⟧ ⟦<<Self as Sequence>::Fields as Fields>⟧ };

    ghost first = { λ t. t == 48 };

    ghost is_element = { λ v h. tagged_element 48 _ };

    ghost one_value = { one_value_of ⟦<Self as Sequence>⟧ ⟦<<Self as Sequence>::Fields as Fields>⟧ (λ v. refl) (tt, tt, tt) };

    ghost error = { sequence_error ⟦<<Self as Sequence>::Fields as Fields>⟧ };

    ghost error_laws = { sequence_error_laws ⟦<Self as Sequence>⟧ ⟦<<Self as Sequence>::Fields as Fields>⟧ (tt, tt, tt) };

    fn starts(octet: u8) -> bool {
        octet == SEQUENCE
    }

    fn write(&self, alloc: Global, out: &mut Vec<u8>) -> Result<(), AllocError> {
        write_sequence(
            alloc,
            &field_refs!(self; domain_name, user_name, password),
            out,
        )
    }
}

impl Der for TsPasswordCreds {
    fn read_element(alloc: Global, tag: u8, content: &[u8]) -> Result<Self, Asn1DerError> {
        read_sequence(alloc, tag, content)
    }
}

impl DerSequence for TsPasswordCreds {
    ghost is_sequence = { λ v. (_, refl) };
}
