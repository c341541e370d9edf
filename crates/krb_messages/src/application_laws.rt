//! Lemmas about the definitions: each alias is the type that its standard names.

ghost use Rattle.std.specs.Prelude.{◌≡◌};
ghost use Rattle.krb_der.specs.Asn1.{application};
ghost use Rattle.krb_der.specs.FieldErrors.{HasErrorsOf};
ghost use Rattle.krb_der.specs.Equality.{DecidesEqual};
ghost use Rattle.krb_der.specs.Tags.{HasTag};

use crate::messages::{
    ApRep, ApRepInner, ApReq, ApReqInner, KrbCred, KrbCredInner, KrbPriv, KrbPrivInner, TgtRep,
    TgtReq,
};
use krb_der::DerEncode;
use krb_der::composite::{Fields, Sequence};
use krb_types::laws::equality as shared_equality;

/// The messages, each under its application tag (RFC 4120, 5.5.1, 5.5.2, 5.7.1 and 5.8.1).
pub fn application_tags()
    ensures ap_req { (v : _) → ⟦<ApReq as DerEncode>⟧.enc v ≡ application 14 (⟦<ApReqInner as DerEncode>⟧.enc v) }
    ensures ap_rep { (v : _) → ⟦<ApRep as DerEncode>⟧.enc v ≡ application 15 (⟦<ApRepInner as DerEncode>⟧.enc v) }
    ensures krb_priv { (v : _) → ⟦<KrbPriv as DerEncode>⟧.enc v ≡ application 21 (⟦<KrbPrivInner as DerEncode>⟧.enc v) }
    ensures krb_cred { (v : _) → ⟦<KrbCred as DerEncode>⟧.enc v ≡ application 22 (⟦<KrbCredInner as DerEncode>⟧.enc v) }
{}

/// The first error of each struct is that of a SEQUENCE of its fields (X.690, 8.9): its tag, then its fields in order, then
/// trailing octets. Its encodings begin with that tag, and with no other octet (X.690, 8.1.2).
pub fn errors()
    ensures ap_req { HasErrorsOf ⟦<ApReqInner as DerEncode>⟧.error ⟦<<ApReqInner as Sequence>::Fields as Fields>⟧ }
    ensures ap_rep { HasErrorsOf ⟦<ApRepInner as DerEncode>⟧.error ⟦<<ApRepInner as Sequence>::Fields as Fields>⟧ }
    ensures krb_cred { HasErrorsOf ⟦<KrbCredInner as DerEncode>⟧.error ⟦<<KrbCredInner as Sequence>::Fields as Fields>⟧ }
    ensures krb_priv { HasErrorsOf ⟦<KrbPrivInner as DerEncode>⟧.error ⟦<<KrbPrivInner as Sequence>::Fields as Fields>⟧ }
    ensures tgt_req { HasErrorsOf ⟦<TgtReq as DerEncode>⟧.error ⟦<<TgtReq as Sequence>::Fields as Fields>⟧ }
    ensures tgt_rep { HasErrorsOf ⟦<TgtRep as DerEncode>⟧.error ⟦<<TgtRep as Sequence>::Fields as Fields>⟧ }
    ensures ap_req_tag { HasTag 48 ⟦<ApReqInner as DerEncode>⟧.first }
    ensures ap_rep_tag { HasTag 48 ⟦<ApRepInner as DerEncode>⟧.first }
    ensures krb_cred_tag { HasTag 48 ⟦<KrbCredInner as DerEncode>⟧.first }
    ensures krb_priv_tag { HasTag 48 ⟦<KrbPrivInner as DerEncode>⟧.first }
    ensures tgt_req_tag { HasTag 48 ⟦<TgtReq as DerEncode>⟧.first }
    ensures tgt_rep_tag { HasTag 48 ⟦<TgtRep as DerEncode>⟧.first }
{}

/// `==` on each struct: it returns true for equal values and for no others.
pub fn equality()
    ensures ap_req { DecidesEqual ⟦<ApReqInner as PartialEq>⟧.eq }
    ensures ap_rep { DecidesEqual ⟦<ApRepInner as PartialEq>⟧.eq }
    ensures krb_cred { DecidesEqual ⟦<KrbCredInner as PartialEq>⟧.eq }
    ensures krb_priv { DecidesEqual ⟦<KrbPrivInner as PartialEq>⟧.eq }
    ensures tgt_req { DecidesEqual ⟦<TgtReq as PartialEq>⟧.eq }
    ensures tgt_rep { DecidesEqual ⟦<TgtRep as PartialEq>⟧.eq }
{
    shared_equality();
}
