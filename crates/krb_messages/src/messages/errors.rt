//! KRB-ERROR.

ghost use Rattle.std.specs.Prelude.{◌==◌, ◌++◌, pos, refl};
ghost use Rattle.krb_der.specs.Asn1.{explicit, general_string, generalized_time, integer, octet_string, sequence};
ghost use Rattle.krb_der.specs.Encoding.{optional};
ghost use Rattle.krb_der.specs.FieldErrors.{sequence_error};
ghost use Rattle.krb_der.specs.FieldErrorLaws.{sequence_error_laws};
ghost use Rattle.krb_der.specs.SequenceLaws.{one_value_of, values_of};
ghost use Rattle.krb_der.specs.TlvLaws.{only_tag, tagged_element};

use krb_der::composite::{Fields, SEQUENCE, Sequence, read_sequence, write_sequence};
use krb_der::{
    ApplicationTag, Asn1DerError, Der, DerEncode, DerSequence, ExplicitContextTag0,
    ExplicitContextTag1, ExplicitContextTag2, ExplicitContextTag3, ExplicitContextTag4,
    ExplicitContextTag5, ExplicitContextTag6, ExplicitContextTag7, ExplicitContextTag8,
    ExplicitContextTag9, ExplicitContextTag10, ExplicitContextTag11, ExplicitContextTag12,
    IntegerAsn1, OctetStringAsn1, Optional, field_refs,
};
use krb_registry::types::KRB_ERROR_MSG_TYPE;
use krb_types::data_types::{KerberosStringAsn1, KerberosTime, Microseconds, PrincipalName, Realm};
use std::alloc::{AllocError, Global};

/// What a KRB-ERROR holds (RFC 4120, 5.9.1).
///
/// RFC 4120 makes the code an Int32. None of its codes is negative, and no negative one is read here.
///
/// ```text
/// SEQUENCE {
///     pvno       [0] INTEGER (5),
///     msg-type   [1] INTEGER (30),
///     ctime      [2] KerberosTime OPTIONAL,
///     cusec      [3] Microseconds OPTIONAL,
///     stime      [4] KerberosTime,
///     susec      [5] Microseconds,
///     error-code [6] INTEGER (0..4294967295),
///     crealm     [7] Realm OPTIONAL,
///     cname      [8] PrincipalName OPTIONAL,
///     realm      [9] Realm,
///     sname      [10] PrincipalName,
///     e-text     [11] KerberosString OPTIONAL,
///     e-data     [12] OCTET STRING OPTIONAL
/// }
/// ```
#[derive(Debug, Drop, PartialEq, Eq)]
pub struct KrbErrorInner {
    /// The version of the protocol.
    pub pvno: ExplicitContextTag0<IntegerAsn1>,
    /// The type of the message.
    pub msg_type: ExplicitContextTag1<IntegerAsn1>,
    /// The time of the client, as its request gave it.
    pub ctime: Optional<Option<ExplicitContextTag2<KerberosTime>>>,
    /// Its microseconds.
    pub cusec: Optional<Option<ExplicitContextTag3<Microseconds>>>,
    /// The time of the server.
    pub stime: ExplicitContextTag4<KerberosTime>,
    /// Its microseconds.
    pub susec: ExplicitContextTag5<Microseconds>,
    /// The error code (RFC 4120, 7.5.9).
    pub error_code: ExplicitContextTag6<u32>,
    /// The realm of the client.
    pub crealm: Optional<Option<ExplicitContextTag7<Realm>>>,
    /// The name of the client.
    pub cname: Optional<Option<ExplicitContextTag8<PrincipalName>>>,
    /// The realm of the server.
    pub realm: ExplicitContextTag9<Realm>,
    /// The name of the server.
    pub sname: ExplicitContextTag10<PrincipalName>,
    /// A text that explains the error.
    pub e_text: Optional<Option<ExplicitContextTag11<KerberosStringAsn1>>>,
    /// Data about the error, whose form depends on the code.
    pub e_data: Optional<Option<ExplicitContextTag12<OctetStringAsn1>>>,
}

impl Sequence for KrbErrorInner {
    type Fields = (
        (
            ExplicitContextTag0<IntegerAsn1>,
            ExplicitContextTag1<IntegerAsn1>,
            Optional<Option<ExplicitContextTag2<KerberosTime>>>,
            Optional<Option<ExplicitContextTag3<Microseconds>>>,
        ),
        (
            ExplicitContextTag4<KerberosTime>,
            ExplicitContextTag5<Microseconds>,
            ExplicitContextTag6<u32>,
            Optional<Option<ExplicitContextTag7<Realm>>>,
            Optional<Option<ExplicitContextTag8<PrincipalName>>>,
        ),
        (
            ExplicitContextTag9<Realm>,
            ExplicitContextTag10<PrincipalName>,
            Optional<Option<ExplicitContextTag11<KerberosStringAsn1>>>,
            Optional<Option<ExplicitContextTag12<OctetStringAsn1>>>,
        ),
    );

    ghost fields = { λ v. (
      (v.pvno, v.msg_type, v.ctime, v.cusec),
      (v.stime, v.susec, v.error_code, v.crealm, v.cname),
      (v.realm, v.sname, v.e_text, v.e_data),
    ) };

    ghost with_fields = { λ f. record {
      pvno = f.0.0;
      msg_type = f.0.1;
      ctime = f.0.2;
      cusec = f.0.3;
      stime = f.1.0;
      susec = f.1.1;
      error_code = f.1.2;
      crealm = f.1.3;
      cname = f.1.4;
      realm = f.2.0;
      sname = f.2.1;
      e_text = f.2.2;
      e_data = f.2.3;
    } };

    fn from_fields(
        (
            (pvno, msg_type, ctime, cusec),
            (stime, susec, error_code, crealm, cname),
            (realm, sname, e_text, e_data),
        ): Self::Fields,
    ) -> Self {
        KrbErrorInner {
            pvno,
            msg_type,
            ctime,
            cusec,
            stime,
            susec,
            error_code,
            crealm,
            cname,
            realm,
            sname,
            e_text,
            e_data,
        }
    }
}

impl DerEncode for KrbErrorInner {
    ghost enc = { λ v. sequence ((explicit 0 (integer v.pvno) ++ explicit 1 (integer v.msg_type)
        ++ optional (λ x. explicit 2 (generalized_time x)) v.ctime.0 ++ optional (λ x. explicit 3 (integer x)) v.cusec.0)
        ++ (explicit 4 (generalized_time v.stime) ++ explicit 5 (integer v.susec) ++ explicit 6 (integer (pos v.error_code))
        ++ optional (λ x. explicit 7 (general_string x)) v.crealm.0
        ++ optional (λ x. explicit 8 (⟦<PrincipalName as DerEncode>⟧.enc x)) v.cname.0)
        ++ (explicit 9 (general_string v.realm) ++ explicit 10 (⟦<PrincipalName as DerEncode>⟧.enc v.sname)
        ++ optional (λ x. explicit 11 (general_string x)) v.e_text.0 ++ optional (λ x. explicit 12 (octet_string x)) v.e_data.0)) };

    ghost is_value = { values_of ⟦<Self as Sequence>⟧ ⟦<<Self as Sequence>::Fields as Fields>⟧ };

    ghost first = { λ t. t == 48 };

    ghost is_element = { λ v h. tagged_element 48 _ };

    ghost one_value = { one_value_of ⟦<Self as Sequence>⟧ ⟦<<Self as Sequence>::Fields as Fields>⟧ (λ v. refl) (
      (tt, tt, only_tag 162 _ refl, only_tag 163 _ refl),
      (tt, tt, tt, only_tag 167 _ refl, only_tag 168 _ refl),
      (tt, tt, only_tag 171 _ refl, only_tag 172 _ refl),
    ) };

    ghost error = { sequence_error ⟦<<Self as Sequence>::Fields as Fields>⟧ };

    ghost error_laws = { sequence_error_laws ⟦<Self as Sequence>⟧ ⟦<<Self as Sequence>::Fields as Fields>⟧ (
      (tt, tt, only_tag 162 _ refl, only_tag 163 _ refl),
      (tt, tt, tt, only_tag 167 _ refl, only_tag 168 _ refl),
      (tt, tt, only_tag 171 _ refl, only_tag 172 _ refl),
    ) };

    fn starts(octet: u8) -> bool {
        octet == SEQUENCE
    }

    fn write(&self, alloc: Global, out: &mut Vec<u8>) -> Result<(), AllocError> {
        write_sequence(
            alloc,
            &field_refs!(self; (pvno, msg_type, ctime, cusec), (stime, susec, error_code, crealm, cname), (realm, sname, e_text, e_data)),
            out,
        )
    }
}

impl Der for KrbErrorInner {
    fn read_element(alloc: Global, tag: u8, content: &[u8]) -> Result<Self, Asn1DerError> {
        read_sequence(alloc, tag, content)
    }
}

impl DerSequence for KrbErrorInner {
    ghost is_sequence = { λ v. (_, refl) };
}

/// The message by which a server or a KDC reports an error (RFC 4120, 5.9.1).
///
/// ```text
/// KRB-ERROR ::= [APPLICATION 30] SEQUENCE {
///     -- the fields of KrbErrorInner
/// }
/// ```
pub type KrbError = ApplicationTag<KrbErrorInner, KRB_ERROR_MSG_TYPE>;
