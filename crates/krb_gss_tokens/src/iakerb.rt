//! A message of IAKERB in a token.

ghost use Rattle.std.specs.Prelude.{◌≡◌, ◌==◌, ◌++◌, refl, List, ℕ, IfOk, IfErr, OnOk, MatchBool};
ghost use Rattle.std.specs.Io.KnownBytes.{Appends};
ghost use Rattle.krb_der.specs.Asn1.{sequence};
ghost use Rattle.krb_der.specs.TlvLaws.{tagged_element};
ghost use Rattle.krb_gss_tokens.specs.Header.{HeaderReads};
ghost use Rattle.krb_der_x509.specs.ObjectIdentifier.{dotted, object_identifier};
ghost use Rattle.krb_gss_tokens.specs.declared.error.GssApiMessageError.TheVariants.{OutOfMemory};
ghost use Rattle.krb_gss_tokens.specs.Proxy.{HeaderRejected, IAKerbRejected, ProxyIdRejected, ProxyReads, ProxyRejected, iakerb, proxy_id};
ghost use Rattle.krb_gss_tokens.specs.ProxyLaws.{ProxyError, proxy_error_laws, proxy_one_value};
ghost use Rattle.krb_gss_tokens.specs.PerMessageRejected.{Answers, IsError};
ghost use Rattle.krb_gss_tokens.specs.Token.{token};

use crate::GssApiMessageError;
use crate::application_tag_0::ApplicationTag0;
use crate::iakerb_header::messages::IAKerbHeader;
use crate::iakerb_header::reading::read_content;
use crate::token::{read_frame, read_mechanism, read_message, read_token_id};
use crate::token_id::TokenId;
use krb_der::composite::{FieldRefs, SEQUENCE, write_sequence};
use krb_der::{Der, DerEncode, DerSequence, copy};
use krb_der_core::read_tlv;
use krb_der_x509::ObjectIdentifierAsn1;
use krb_der_x509::untagged::FieldRef;
use krb_registry::gss_api::IAKERB_PROXY_TOKEN_ID;
use std::alloc::{AllocError, Global};
use std::io::Write;

/// The arcs of IAKERB (draft-ietf-kitten-iakerb-03, 3).
const IAKERB: [u64; 7] = [1, 3, 6, 1, 5, 2, 5];

/// The same in decimal.
const IAKERB_TEXT: &str = "1.3.6.1.5.2.5";

/// The same as an OBJECT IDENTIFIER's encoding.
const IAKERB_OBJECT_IDENTIFIER: [u8; 8] = [0x06, 0x06, 0x2b, 0x06, 0x01, 0x05, 0x02, 0x05];

/// A message of IAKERB in a token (draft-ietf-kitten-iakerb-03, 3; RFC 2743, 3.1): it is sent as
/// `ApplicationTag0<IAKerbProxyMessage<T>>`. `T` is the message's type, such as `AsReq`.
///
/// ```text
/// IAKerbProxyMessage ::= SEQUENCE {
///     -- 1.3.6.1.5.2.5, an OBJECT IDENTIFIER
///     -- 05 01, two octets with no tag and no length
///     header IAKERB-HEADER,
///     krbMsg T
/// }
/// ```
///
/// Its header is read from more than one encoding, so it does not implement `Der`.
#[derive(Debug, Drop, PartialEq, Eq)]
pub struct IAKerbProxyMessage<T> {
    /// The header, which names the realm of the message.
    pub header: IAKerbHeader,
    /// The message.
    pub krb_msg: T,
}

/// The mechanism IAKERB as a field of a sequence.
#[derive(Drop)]
struct IAKerbMechanism;

impl FieldRefs for IAKerbMechanism {
    ghost octets = { λ v. object_identifier iakerb };

    ghost are_values = { λ v. Unit {0} };

    #[tactic(auto, using(crate::proofs::Proxies::iakerb_octets))]
    fn write_refs(&self, _alloc: Global, out: &mut Vec<u8>) -> Result<(), AllocError> {
        out.extend_from_slice(&IAKERB_OBJECT_IDENTIFIER)
    }
}

impl<T: Der + Drop> DerEncode for IAKerbProxyMessage<T> {
    ghost enc = { λ v. sequence (object_identifier iakerb ++ (proxy_id ++ (⟦<IAKerbHeader as DerEncode>⟧.enc v.header ++ T.enc v.krb_msg))) };

    ghost is_value = { λ v. ⟦<IAKerbHeader as DerEncode>⟧.is_value v.header × T.is_value v.krb_msg };

    ghost first = { λ t. t == 48 };

    ghost is_element = { λ v h. tagged_element 48 _ };

    ghost one_value = { proxy_one_value ⟦<IAKerbHeader as DerEncode>⟧ T.is_value T.enc T.one_value };

    ghost error = { ProxyError ⟦<IAKerbHeader as DerEncode>⟧ T.is_value T.enc };

    ghost error_laws = { proxy_error_laws ⟦<IAKerbHeader as DerEncode>⟧ T.is_value T.enc };

    fn starts(octet: u8) -> bool {
        octet == SEQUENCE
    }

    fn write(&self, alloc: Global, out: &mut Vec<u8>) -> Result<(), AllocError> {
        write_sequence(
            alloc,
            &(
                IAKerbMechanism,
                (
                    TokenId(IAKERB_PROXY_TOKEN_ID),
                    (FieldRef(&self.header), FieldRef(&self.krb_msg)),
                ),
            ),
            out,
        )
    }
}

impl<T: Der + Drop> DerSequence for IAKerbProxyMessage<T> {
    ghost is_sequence = { λ v. (_, refl) };
}

impl<T: Der + Drop> IAKerbProxyMessage<T> {
    /// Writes the content of the SEQUENCE: the mechanism, the token id, the header and the message, without tag and length.
    ///
    /// The octets are computed first: with `OutOfMemory` nothing was written. `IoError` is an error of the writer; some octets
    /// may have been written then.
    pub fn encode<W: Write>(&self, alloc: Global, writer: &mut W) -> Result<(), GssApiMessageError>
        ensures octets { OnOk result (Appends (W.contents writer.old) (W.contents writer.new)
            (object_identifier iakerb ++ (proxy_id ++ (⟦<IAKerbHeader as DerEncode>⟧.enc self.now.header ++ T.enc self.now.krb_msg)))) }
        ensures err { IfErr result IsError }
        ensures kept { IfErr result (λ e. e ≡ OutOfMemory → writer.new ≡ writer.old) }
    {
        let mut octets = Vec::new(alloc);
        let fields = (
            IAKerbMechanism,
            (
                TokenId(IAKERB_PROXY_TOKEN_ID),
                (FieldRef(&self.header), FieldRef(&self.krb_msg)),
            ),
        );
        fields.write_refs(alloc, &mut octets)?;
        writer.write_all(&octets)?;
        Ok(())
    }

    /// The message of the token at the start of the input. Trailing octets are not read.
    ///
    /// The parts are read from the left, and the first error is returned. An input that does not begin with `60` is
    /// `Asn1Error(InvalidData)`, and one that ends inside the token `Asn1Error(TruncatedData)`; the errors of its length octets are
    /// those of any element. Then come the errors of the mechanism; `InvalidMechanismOid`, with `1.3.6.1.5.2.5` and the other
    /// mechanism; `IoError` of `UnexpectedEof` where the token ends inside the id; `InvalidId`, with `05 01` and the other id; the
    /// errors of the header, as `IAKerbHeader::from_bytes` returns them, and of the message; and `Asn1Error(InvalidData)` where
    /// the token has trailing octets. The errors of the mechanism and of the message are those of `from_bytes`. There is no
    /// other `IoError`.
    pub fn decode_application_iakerb_proxy_message(
        alloc: Global,
        input: &[u8],
    ) -> Result<ApplicationTag0<IAKerbProxyMessage<T>>, GssApiMessageError>
        ensures valid { IfOk result (λ m. ⟦<IAKerbHeader as DerEncode>⟧.is_value m.header × T.is_value m.krb_msg) }
        ensures found { IfOk result (λ m. (content : List ℕ) × (rest : List ℕ) × (input.now ≡ token content ++ rest)
            × ProxyReads T.enc content m.header m.krb_msg) }
        ensures reads { (m : _) (content rest : List ℕ) → ⟦<IAKerbHeader as DerEncode>⟧.is_value m.header → T.is_value m.krb_msg
            → input.now ≡ token content ++ rest → ProxyReads T.enc content m.header m.krb_msg → Answers result m }
        ensures first_error { IfErr result (ProxyRejected ⟦<IAKerbHeader as DerEncode>⟧ ⟦<T as DerEncode>⟧ input.now) }
    {
        let content = read_frame(input)?;
        let trailing = read_iakerb(alloc, content)?;
        let rest = read_proxy_id(trailing)?;
        let (header, message) = read_header(alloc, rest)?;
        let krb_msg = read_message(alloc, message)?;
        Ok(ApplicationTag0(IAKerbProxyMessage { header, krb_msg }))
    }

    /// An equal message. The only error is `OutOfMemory`.
    pub fn clone(&self, alloc: Global) -> Result<IAKerbProxyMessage<T>, GssApiMessageError>
        ensures { Answers result self.now }
    {
        let header = self.header.clone(alloc)?;
        let krb_msg = copy(alloc, &self.krb_msg)?;
        Ok(IAKerbProxyMessage { header, krb_msg })
    }
}

/// Whether a mechanism is IAKERB.
fn is_iakerb(mechanism: &ObjectIdentifierAsn1) -> bool
    ensures { MatchBool result (mechanism.now ≡ iakerb) (mechanism.now ≡ iakerb → ⊥) }
{
    mechanism.arcs() == IAKERB.as_slice()
}

/// The error for another mechanism than IAKERB, with both in decimal.
#[tactic(auto, using(crate::proofs::Proxies::iakerb_text))]
fn mechanism_texts(
    alloc: Global,
    mechanism: &ObjectIdentifierAsn1,
) -> Result<(String, String), GssApiMessageError>
    ensures expected { IfOk result (λ p. p.0.bytes.items ≡ dotted iakerb) }
    ensures got { IfOk result (λ p. p.1.bytes.items ≡ dotted mechanism.now) }
    ensures err { IfErr result (λ e. e ≡ OutOfMemory) }
{
    let expected = String::from_str(alloc, IAKERB_TEXT)?;
    let got = mechanism.to_text(alloc)?;
    Ok((expected, got))
}

/// What follows the mechanism IAKERB at the start of a token's content.
fn read_iakerb(alloc: Global, content: &[u8]) -> Result<&[u8], GssApiMessageError>
    ensures found { IfOk result (λ trailing. content.now ≡ object_identifier iakerb ++ trailing.now) }
    ensures rejected { IfErr result (IAKerbRejected content.now) }
{
    let (mechanism, trailing) = read_mechanism(alloc, content)?;
    if !is_iakerb(&mechanism) {
        let (expected, got) = mechanism_texts(alloc, &mechanism)?;
        return Err(GssApiMessageError::InvalidMechanismOid(expected, got));
    }
    Ok(trailing)
}

/// What follows the token id of a proxy's message.
fn read_proxy_id(octets: &[u8]) -> Result<&[u8], GssApiMessageError>
    ensures found { IfOk result (λ rest. octets.now ≡ proxy_id ++ rest.now) }
    ensures rejected { IfErr result (ProxyIdRejected octets.now) }
{
    let (id, rest) = read_token_id(octets)?;
    if id != IAKERB_PROXY_TOKEN_ID {
        return Err(GssApiMessageError::InvalidId(IAKERB_PROXY_TOKEN_ID, id));
    }
    Ok(rest)
}

/// The header at the start, and what follows it.
fn read_header(alloc: Global, octets: &[u8]) -> Result<(IAKerbHeader, &[u8]), GssApiMessageError>
    ensures valid { IfOk result (λ p. ⟦<IAKerbHeader as DerEncode>⟧.is_value p.0) }
    ensures found { IfOk result (λ p. (b : List ℕ) × HeaderReads b p.0 × (octets.now ≡ b ++ p.1.now)) }
    ensures rejected { IfErr result (HeaderRejected ⟦<IAKerbHeader as DerEncode>⟧ octets.now) }
{
    let (content, taken) = read_tlv(SEQUENCE, octets)?;
    let header = read_content(alloc, content)?;
    Ok((header, &octets[taken..]))
}
