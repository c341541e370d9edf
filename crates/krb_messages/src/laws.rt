//! Lemmas about the definitions: each alias is the type that its standard names.

ghost use Rattle.std.specs.Prelude.{◌≡◌};
ghost use Rattle.krb_der.specs.Asn1.{application};
ghost use Rattle.krb_der.specs.Choice.{ChoiceError};
ghost use Rattle.krb_der.specs.FieldErrors.{HasErrorsOf, SameError};
ghost use Rattle.krb_der.specs.Equality.{DecidesEqual};
ghost use Rattle.krb_der.specs.Tags.{HasTag, HasTags};

use crate::application_laws::equality as application_equality;
use crate::messages::{ApMessage, ApRep, ApReq, KdcProxyMessage, KrbError, KrbErrorInner};
use krb_der::DerEncode;
use krb_der::composite::{Fields, Sequence};
use krb_types::laws::equality as shared_equality;

/// The message under its application tag (RFC 4120, 5.9.1).
pub fn application_tags()
    ensures krb_error { (v : _) → ⟦<KrbError as DerEncode>⟧.enc v ≡ application 30 (⟦<KrbErrorInner as DerEncode>⟧.enc v) }
{}

/// Either message of an exchange with a server is encoded as itself (RFC 4120, 5.5.1 and 5.5.2).
pub fn ap_messages()
    ensures ap_req { (v : _) → ⟦<ApMessage as DerEncode>⟧.enc (ApMessage.ApReq v) ≡ ⟦<ApReq as DerEncode>⟧.enc v }
    ensures ap_rep { (v : _) → ⟦<ApMessage as DerEncode>⟧.enc (ApMessage.ApRep v) ≡ ⟦<ApRep as DerEncode>⟧.enc v }
{}

/// The first error of each struct is that of a SEQUENCE of its fields (X.690, 8.9): its tag, then its fields in order, then
/// trailing octets. Its encodings begin with that tag alone.
pub fn errors()
    ensures krb_error { HasErrorsOf ⟦<KrbErrorInner as DerEncode>⟧.error ⟦<<KrbErrorInner as Sequence>::Fields as Fields>⟧ }
    ensures krb_error_tag { HasTag 48 ⟦<KrbErrorInner as DerEncode>⟧.first }
    ensures kdc_proxy_message { HasErrorsOf ⟦<KdcProxyMessage as DerEncode>⟧.error ⟦<<KdcProxyMessage as Sequence>::Fields as Fields>⟧ }
    ensures kdc_proxy_message_tag { HasTag 48 ⟦<KdcProxyMessage as DerEncode>⟧.first }
{}

/// The first error of a choice of two messages (X.690, 8.13): the tag is neither's, or it is that of the message whose tag
/// it is.
pub fn ap_message_errors()
    ensures error { SameError ⟦<ApMessage as DerEncode>⟧.error (ChoiceError 110 111 ⟦<ApReq as DerEncode>⟧.error ⟦<ApRep as DerEncode>⟧.error) }
    ensures tags { HasTags 110 111 ⟦<ApMessage as DerEncode>⟧.first }
{}

/// `==` on each struct and on the choice: it returns true for equal values and for no others.
pub fn equality()
    ensures ap_message { DecidesEqual ⟦<ApMessage as PartialEq>⟧.eq }
    ensures krb_error { DecidesEqual ⟦<KrbErrorInner as PartialEq>⟧.eq }
    ensures kdc_proxy_message { DecidesEqual ⟦<KdcProxyMessage as PartialEq>⟧.eq }
{
    shared_equality();
    application_equality();
}
