//! Changes of passwords.

ghost use Rattle.std.specs.Prelude.{◌==◌, ◌++◌, refl};
ghost use Rattle.krb_der.specs.Asn1.{explicit, general_string, octet_string, sequence};
ghost use Rattle.krb_der.specs.Encoding.{optional};
ghost use Rattle.krb_der.specs.FieldErrors.{sequence_error};
ghost use Rattle.krb_der.specs.FieldErrorLaws.{sequence_error_laws};
ghost use Rattle.krb_der.specs.SequenceLaws.{one_value_of, values_of};
ghost use Rattle.krb_der.specs.TlvLaws.{only_tag, tagged_element};

use super::{PrincipalName, Realm};
use krb_der::composite::{Fields, SEQUENCE, Sequence, read_sequence, write_sequence};
use krb_der::{
    Asn1DerError, Der, DerEncode, DerSequence, ExplicitContextTag0, ExplicitContextTag1,
    ExplicitContextTag2, OctetStringAsn1, Optional, field_refs,
};
use std::alloc::{AllocError, Global};

/// What a client asks for that sets a password (RFC 3244, 2).
///
/// ```text
/// ChangePasswdData ::= SEQUENCE {
///     newpasswd [0] OCTET STRING,
///     targname  [1] PrincipalName OPTIONAL,
///     targrealm [2] Realm OPTIONAL
/// }
/// ```
#[derive(Debug, Drop, PartialEq, Eq)]
pub struct ChangePasswdData {
    /// The new password, in UTF-8.
    pub new_passwd: ExplicitContextTag0<OctetStringAsn1>,
    /// Whose password it is; where absent, the client's own.
    pub target_name: Optional<Option<ExplicitContextTag1<PrincipalName>>>,
    /// The realm of that name.
    pub target_realm: Optional<Option<ExplicitContextTag2<Realm>>>,
}

impl Sequence for ChangePasswdData {
    type Fields = (
        ExplicitContextTag0<OctetStringAsn1>,
        Optional<Option<ExplicitContextTag1<PrincipalName>>>,
        Optional<Option<ExplicitContextTag2<Realm>>>,
    );

    ghost fields = { λ v. (v.new_passwd, v.target_name, v.target_realm) };

    ghost with_fields = { λ f. record { new_passwd = f.0; target_name = f.1; target_realm = f.2 } };

    fn from_fields((new_passwd, target_name, target_realm): Self::Fields) -> Self {
        ChangePasswdData {
            new_passwd,
            target_name,
            target_realm,
        }
    }
}

impl DerEncode for ChangePasswdData {
    ghost enc = { λ v. sequence (explicit 0 (octet_string v.new_passwd)
        ++ optional (λ x. explicit 1 (⟦<PrincipalName as DerEncode>⟧.enc x)) v.target_name.0
        ++ optional (λ x. explicit 2 (general_string x)) v.target_realm.0) };

    ghost is_value = { values_of ⟦<Self as Sequence>⟧ ⟦<<Self as Sequence>::Fields as Fields>⟧ };

    ghost first = { λ t. t == 48 };

    ghost is_element = { λ v h. tagged_element 48 _ };

    ghost one_value = { one_value_of ⟦<Self as Sequence>⟧ ⟦<<Self as Sequence>::Fields as Fields>⟧ (λ v. refl) (tt, only_tag 161 _ refl, only_tag 162 _ refl) };

    ghost error = { sequence_error ⟦<<Self as Sequence>::Fields as Fields>⟧ };

    ghost error_laws = { sequence_error_laws ⟦<Self as Sequence>⟧ ⟦<<Self as Sequence>::Fields as Fields>⟧ (tt, only_tag 161 _ refl, only_tag 162 _ refl) };

    fn starts(octet: u8) -> bool {
        octet == SEQUENCE
    }

    fn write(&self, alloc: Global, out: &mut Vec<u8>) -> Result<(), AllocError> {
        write_sequence(
            alloc,
            &field_refs!(self; new_passwd, target_name, target_realm),
            out,
        )
    }
}

impl Der for ChangePasswdData {
    fn read_element(alloc: Global, tag: u8, content: &[u8]) -> Result<Self, Asn1DerError> {
        read_sequence(alloc, tag, content)
    }
}

impl DerSequence for ChangePasswdData {
    ghost is_sequence = { λ v. (_, refl) };
}
