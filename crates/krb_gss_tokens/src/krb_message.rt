//! A message of Kerberos in a token.

ghost use Rattle.std.specs.Prelude.{◌≡◌, ◌==◌, ◌++◌, refl, List, ℕ, IfOk, IfErr, OnOk};
ghost use Rattle.std.specs.Io.KnownBytes.{Appends};
ghost use Rattle.krb_der.specs.Asn1.{sequence};
ghost use Rattle.krb_der.specs.FieldErrors.{sequence_error};
ghost use Rattle.krb_der.specs.FieldErrorLaws.{sequence_error_laws};
ghost use Rattle.krb_der.specs.SequenceLaws.{one_value_of, values_of};
ghost use Rattle.krb_der.specs.TlvLaws.{tagged_element};
ghost use Rattle.krb_der_x509.specs.ObjectIdentifier.{object_identifier};
ghost use Rattle.krb_gss_tokens.specs.declared.error.GssApiMessageError.TheVariants.{OutOfMemory};
ghost use Rattle.krb_gss_tokens.specs.Rejected.{KrbMessageRejected};
ghost use Rattle.krb_gss_tokens.specs.PerMessageRejected.{Answers, IsError};
ghost use Rattle.krb_gss_tokens.specs.Token.{in_token};

use crate::GssApiMessageError;
use crate::application_tag_0::ApplicationTag0;
use crate::token::{read_frame, read_mechanism, read_message, read_token_id};
use crate::token_id::TokenId;
use krb_der::composite::{FieldRefs, Fields, SEQUENCE, Sequence, read_sequence, write_sequence};
use krb_der::{Asn1DerError, Der, DerEncode, DerSequence};
use krb_der_x509::ObjectIdentifierAsn1;
use krb_der_x509::untagged::{Field, FieldRef};
use std::alloc::{AllocError, Global};
use std::io::Write;

/// A message of Kerberos in a token (RFC 4121, 4.1; RFC 2743, 3.1): it is sent as
/// `ApplicationTag0<KrbMessage<T>>`. `T` is the message's type, such as `ApReq`.
///
/// ```text
/// KrbMessage ::= SEQUENCE {
///     krb5Oid     OBJECT IDENTIFIER, -- 1.2.840.113554.1.2.2, which is not compared
///     krb5TokenId, -- two octets with no tag and no length
///     krbMsg      T
/// }
/// ```
#[derive(Debug, Drop, PartialEq, Eq)]
pub struct KrbMessage<T> {
    /// The mechanism.
    pub krb5_oid: ObjectIdentifierAsn1,
    /// The token id, which says what the message is.
    pub krb5_token_id: [u8; 2],
    /// The message.
    pub krb_msg: T,
}

impl<T: Der + Drop> Sequence for KrbMessage<T> {
    type Fields = (Field<ObjectIdentifierAsn1>, TokenId, Field<T>);

    ghost fields = { λ v. (v.krb5_oid, v.krb5_token_id, v.krb_msg) };

    ghost with_fields = { λ f. record { krb5_oid = f.0; krb5_token_id = f.1; krb_msg = f.2 } };

    fn from_fields(
        (Field(krb5_oid), TokenId(krb5_token_id), Field(krb_msg)): Self::Fields,
    ) -> Self {
        KrbMessage {
            krb5_oid,
            krb5_token_id,
            krb_msg,
        }
    }
}

impl<T: Der + Drop> DerEncode for KrbMessage<T> {
    ghost enc = { λ v. sequence (object_identifier v.krb5_oid ++ v.krb5_token_id ++ T.enc v.krb_msg) };

    ghost is_value = { values_of ⟦<Self as Sequence>⟧ ⟦<<Self as Sequence>::Fields as Fields>⟧ };

    ghost first = { λ t. t == 48 };

    ghost is_element = { λ v h. tagged_element 48 _ };

    ghost one_value = { one_value_of ⟦<Self as Sequence>⟧ ⟦<<Self as Sequence>::Fields as Fields>⟧ (λ v. refl) (tt, tt, tt) };

    ghost error = { sequence_error ⟦<<Self as Sequence>::Fields as Fields>⟧ };

    ghost error_laws = { sequence_error_laws ⟦<Self as Sequence>⟧ ⟦<<Self as Sequence>::Fields as Fields>⟧ (tt, tt, tt) };

    fn starts(octet: u8) -> bool {
        octet == SEQUENCE
    }

    fn write(&self, alloc: Global, out: &mut Vec<u8>) -> Result<(), AllocError> {
        write_sequence(
            alloc,
            &(
                FieldRef(&self.krb5_oid),
                (TokenId(self.krb5_token_id), FieldRef(&self.krb_msg)),
            ),
            out,
        )
    }
}

impl<T: Der + Drop> Der for KrbMessage<T> {
    fn read_element(alloc: Global, tag: u8, content: &[u8]) -> Result<Self, Asn1DerError> {
        read_sequence(alloc, tag, content)
    }
}

impl<T: Der + Drop> DerSequence for KrbMessage<T> {
    ghost is_sequence = { λ v. (_, refl) };
}

impl<T: Der + Drop> KrbMessage<T> {
    /// Writes the content of the SEQUENCE: the mechanism, the token id and the message, without tag and length.
    ///
    /// The octets are computed first: with `OutOfMemory` nothing was written. `IoError` is an error of the writer; some octets
    /// may have been written then.
    pub fn encode<W: Write>(&self, alloc: Global, writer: &mut W) -> Result<(), GssApiMessageError>
        ensures octets { OnOk result (Appends (W.contents writer.old) (W.contents writer.new)
            (object_identifier self.now.krb5_oid ++ (self.now.krb5_token_id ++ T.enc self.now.krb_msg))) }
        ensures err { IfErr result IsError }
        ensures kept { IfErr result (λ e. e ≡ OutOfMemory → writer.new ≡ writer.old) }
    {
        let mut octets = Vec::new(alloc);
        let fields = (
            FieldRef(&self.krb5_oid),
            (TokenId(self.krb5_token_id), FieldRef(&self.krb_msg)),
        );
        fields.write_refs(alloc, &mut octets)?;
        writer.write_all(&octets)?;
        Ok(())
    }

    /// The message of the token at the start of the input. Trailing octets are not read.
    ///
    /// The parts are read from the left, and the first error is returned. An input that does not begin with `60` is
    /// `Asn1Error(InvalidData)`, and one that ends inside the token `Asn1Error(TruncatedData)`; the errors of its length octets are
    /// those of any element. Then come the errors of the mechanism, which may be any; `IoError` of `UnexpectedEof` where the token
    /// ends inside the id, which may be any; the errors of the message; and `Asn1Error(InvalidData)` where the token has trailing
    /// octets. The errors of the mechanism and of the message are those of `from_bytes`. There is no other `IoError`.
    pub fn decode_application_krb_message(
        alloc: Global,
        input: &[u8],
    ) -> Result<ApplicationTag0<KrbMessage<T>>, GssApiMessageError>
        ensures valid { IfOk result ⟦<KrbMessage<T> as DerEncode>⟧.is_value }
        ensures found { IfOk result (λ m. (rest : List ℕ) × (input.now ≡ in_token (⟦<KrbMessage<T> as DerEncode>⟧.enc m) ++ rest)) }
        ensures reads { (m : _) (rest : List ℕ) → ⟦<KrbMessage<T> as DerEncode>⟧.is_value m
            → input.now ≡ in_token (⟦<KrbMessage<T> as DerEncode>⟧.enc m) ++ rest → Answers result m }
        ensures first_error { IfErr result (KrbMessageRejected ⟦<T as DerEncode>⟧ input.now) }
    {
        let content = read_frame(input)?;
        let (krb5_oid, trailing) = read_mechanism(alloc, content)?;
        let (krb5_token_id, rest) = read_token_id(trailing)?;
        let krb_msg = read_message(alloc, rest)?;
        Ok(ApplicationTag0(KrbMessage {
            krb5_oid,
            krb5_token_id,
            krb_msg,
        }))
    }
}
