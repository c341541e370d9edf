//! Lemmas about the definitions: functions with no body, each of whose clauses is a fact for proofs above.

ghost use Rattle.std.specs.Prelude.{◌≡◌, ◌↔◌, ◌++◌, ◌∷◌, ◌<◌, ◌^◌, List, ℕ, drop, length};
ghost use Rattle.krb_der.specs.Asn1.{explicit, sequence_of};
ghost use Rattle.krb_der.specs.FieldErrors.{HasErrorsOf, SameError};
ghost use Rattle.krb_der.specs.Tags.{HasTag};
ghost use Rattle.krb_der.specs.Equality.{DecidesEqual};
ghost use Rattle.krb_der_x509.specs.ObjectIdentifier.{object_identifier};
ghost use Rattle.krb_der_core.specs.Tlv.{tlv};
ghost use Rattle.krb_der_core.specs.Errors.{TaggedError};
ghost use Rattle.krb_der_core.specs.declared.error.Asn1DerError.{Asn1DerError};
ghost use Rattle.krb_der_core.specs.declared.error.Asn1DerError.TheVariants.{TruncatedData};
ghost use Rattle.krb_gss_tokens.specs.Proxy.{ProxyReads, ProxyRejected};
ghost use Rattle.krb_gss_tokens.specs.Rejected.{KrbMessageRejected, ReportsOneError};
ghost use Rattle.krb_gss_tokens.specs.Token.{in_token, token};
ghost use Rattle.krb_gss_tokens.specs.declared.iakerb.IAKerbProxyMessage.{IAKerbProxyMessage};
ghost use Rattle.krb_gss_tokens.specs.declared.error.GssApiMessageError.{GssApiMessageError};
ghost use Rattle.krb_gss_tokens.specs.declared.error.GssApiMessageError.TheVariants.{OutOfMemory};

use crate::application_tag_0::ApplicationTag0;
use crate::iakerb::IAKerbProxyMessage;
use crate::iakerb_header::laws::{equality as header_equality, header_readings};
use crate::iakerb_header::messages::IAKerbHeader;
use crate::krb_message::KrbMessage;
use crate::spnego::{
    GssApiNegInit, MechType, MechTypeList, NegTokenInit, NegTokenTarg, NegTokenTarg1,
};
use crate::token_id::TokenId;
use krb_der::composite::{Fields, Sequence};
use krb_der::{Der, DerEncode, DerSequence};

/// The aliases (RFC 4178, 4.1 and 4.2).
pub fn aliases()
    ensures mech_type { (v : List ℕ) → ⟦<MechType as DerEncode>⟧.enc v ≡ object_identifier v }
    ensures mech_type_list { (v : List (List ℕ)) → ⟦<MechTypeList as DerEncode>⟧.enc v ≡ sequence_of object_identifier v }
    ensures neg_token_targ_1 { (v : _) → ⟦<NegTokenTarg1 as DerEncode>⟧.enc v ≡ explicit 1 (⟦<NegTokenTarg as DerEncode>⟧.enc v) }
{}

/// A token is the SEQUENCE's encoding with `60` in place of its first octet, `30`
/// (RFC 2743, 3.1; X.690, 8.14).
pub fn tokens<T: DerSequence>()
    ensures first_octet { (v : T) → ⟦<ApplicationTag0<T> as DerEncode>⟧.enc v ≡ 96 ∷ drop 1 (T.enc v) }
    ensures content { (v : T) (content : List ℕ) → T.enc v ≡ tlv 48 content → ⟦<ApplicationTag0<T> as DerEncode>⟧.enc v ≡ tlv 96 content }
{}

/// A written token of IAKERB is read as the value that was written (draft-ietf-kitten-iakerb-03, 3).
pub fn proxy_messages<T: Der + Drop>()
    ensures written { (m : _) → ⟦<IAKerbProxyMessage<T> as DerEncode>⟧.is_value m → (content : List ℕ)
        × (⟦<ApplicationTag0<IAKerbProxyMessage<T>> as DerEncode>⟧.enc m ≡ token content) × ProxyReads T.enc content m.header m.krb_msg }
{
    header_readings();
}

/// The first error of each struct is that of a SEQUENCE of its fields (X.690, 8.9): its tag, then its fields in order, then
/// trailing octets. Its encodings begin with that tag alone.
pub fn errors()
    ensures neg_token_init { HasErrorsOf ⟦<NegTokenInit as DerEncode>⟧.error ⟦<<NegTokenInit as Sequence>::Fields as Fields>⟧ }
    ensures neg_token_init_tag { HasTag 48 ⟦<NegTokenInit as DerEncode>⟧.first }
    ensures neg_token_targ { HasErrorsOf ⟦<NegTokenTarg as DerEncode>⟧.error ⟦<<NegTokenTarg as Sequence>::Fields as Fields>⟧ }
    ensures neg_token_targ_tag { HasTag 48 ⟦<NegTokenTarg as DerEncode>⟧.first }
    ensures gss_api_neg_init { HasErrorsOf ⟦<GssApiNegInit as DerEncode>⟧.error ⟦<<GssApiNegInit as Sequence>::Fields as Fields>⟧ }
    ensures gss_api_neg_init_tag { HasTag 48 ⟦<GssApiNegInit as DerEncode>⟧.first }
{}

/// The first error of a token (RFC 2743, 3.1): another first octet, or that of the SEQUENCE inside, as under its own tag.
pub fn token_errors<T: DerSequence>()
    ensures error { SameError ⟦<ApplicationTag0<T> as DerEncode>⟧.error (TaggedError 96 (T.error 48)) }
    ensures tag { HasTag 96 ⟦<ApplicationTag0<T> as DerEncode>⟧.first }
{}

/// The first error of a message in a token (RFC 4121, 4.1), and of the two octets between the mechanism and the message: fewer
/// than two are cut short.
pub fn krb_message_errors<T: Der + Drop>()
    ensures message { HasErrorsOf ⟦<KrbMessage<T> as DerEncode>⟧.error ⟦<<KrbMessage<T> as Sequence>::Fields as Fields>⟧ }
    ensures message_tag { HasTag 48 ⟦<KrbMessage<T> as DerEncode>⟧.first }
    ensures token_id { (octets : List ℕ) (e : Asn1DerError) → ⟦<TokenId as Fields>⟧.error octets e ↔ (e ≡ TruncatedData) × (length octets < 2) }
    ensures token_id_ends { (v rest : List ℕ) → ⟦<TokenId as Fields>⟧.ends v rest }
{}

/// Where a token of Kerberos or of IAKERB has an error of DER (X.690), it has no other first error.
pub fn one_error<T: Der + Drop>()
    ensures krb_message { ReportsOneError (KrbMessageRejected ⟦<T as DerEncode>⟧) }
    ensures proxy_message { ReportsOneError (ProxyRejected ⟦<IAKerbHeader as DerEncode>⟧ ⟦<T as DerEncode>⟧) }
{}

/// Octets that begin with a token of Kerberos or of IAKERB have no error.
pub fn none_where_read<T: Der + Drop>()
    ensures krb_message { (m : _) (input rest : List ℕ) (e : GssApiMessageError) → length input < 2 ^ 64 → ⟦<KrbMessage<T> as DerEncode>⟧.is_value m
        → input ≡ in_token (⟦<KrbMessage<T> as DerEncode>⟧.enc m) ++ rest → KrbMessageRejected ⟦<T as DerEncode>⟧ input e → e ≡ OutOfMemory }
    ensures proxy_message { (m : IAKerbProxyMessage T) (input content rest : List ℕ) (e : GssApiMessageError) → length input < 2 ^ 64
        → ⟦<IAKerbHeader as DerEncode>⟧.is_value m.header → T.is_value m.krb_msg → input ≡ token content ++ rest → ProxyReads T.enc content m.header m.krb_msg
        → ProxyRejected ⟦<IAKerbHeader as DerEncode>⟧ ⟦<T as DerEncode>⟧ input e → e ≡ OutOfMemory }
{}

/// `==` on the messages of SPNEGO: it returns true for equal values and for no others.
pub fn equality()
    ensures neg_token_init { DecidesEqual ⟦<NegTokenInit as PartialEq>⟧.eq }
    ensures neg_token_targ { DecidesEqual ⟦<NegTokenTarg as PartialEq>⟧.eq }
    ensures gss_api_neg_init { DecidesEqual ⟦<GssApiNegInit as PartialEq>⟧.eq }
{}

/// `==` on types with a message: it returns true for equal values and for no others, where that of the message does.
pub fn message_equality<T: PartialEq>()
    ensures application_tag_0 { DecidesEqual T.eq → DecidesEqual ⟦<ApplicationTag0<T> as PartialEq>⟧.eq }
    ensures krb_message { DecidesEqual T.eq → DecidesEqual ⟦<KrbMessage<T> as PartialEq>⟧.eq }
    ensures proxy_message { DecidesEqual T.eq → DecidesEqual ⟦<IAKerbProxyMessage<T> as PartialEq>⟧.eq }
{
    header_equality();
}
