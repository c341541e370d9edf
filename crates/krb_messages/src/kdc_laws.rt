//! Lemmas about the definitions: each alias is the type that its standard names.

ghost use Rattle.std.specs.Prelude.{◌≡◌};
ghost use Rattle.krb_der.specs.Asn1.{application};
ghost use Rattle.krb_der.specs.FieldErrors.{HasErrorsOf};
ghost use Rattle.krb_der.specs.Equality.{DecidesEqual};
ghost use Rattle.krb_der.specs.Tags.{HasTag};

use crate::messages::{
    AsRep, AsReq, EncAsRepPart, EncKdcRepPart, EncTgsRepPart, KdcRep, KdcReq, KdcReqBody, TgsRep,
    TgsReq,
};
use krb_der::DerEncode;
use krb_der::composite::{Fields, Sequence};
use krb_types::laws::equality as shared_equality;
use krb_types::laws::pre_authentication::equality as padata_equality;

/// The messages and their encrypted parts, each under its application tag (RFC 4120, 5.4.1 and 5.4.2).
pub fn application_tags()
    ensures as_req { (v : _) → ⟦<AsReq as DerEncode>⟧.enc v ≡ application 10 (⟦<KdcReq as DerEncode>⟧.enc v) }
    ensures as_rep { (v : _) → ⟦<AsRep as DerEncode>⟧.enc v ≡ application 11 (⟦<KdcRep as DerEncode>⟧.enc v) }
    ensures tgs_req { (v : _) → ⟦<TgsReq as DerEncode>⟧.enc v ≡ application 12 (⟦<KdcReq as DerEncode>⟧.enc v) }
    ensures tgs_rep { (v : _) → ⟦<TgsRep as DerEncode>⟧.enc v ≡ application 13 (⟦<KdcRep as DerEncode>⟧.enc v) }
    ensures enc_as_rep_part { (v : _) → ⟦<EncAsRepPart as DerEncode>⟧.enc v ≡ application 25 (⟦<EncKdcRepPart as DerEncode>⟧.enc v) }
    ensures enc_tgs_rep_part { (v : _) → ⟦<EncTgsRepPart as DerEncode>⟧.enc v ≡ application 26 (⟦<EncKdcRepPart as DerEncode>⟧.enc v) }
{}

/// The first error of each struct is that of a SEQUENCE of its fields (X.690, 8.9): its tag, then its fields in order, then
/// trailing octets. Its encodings begin with that tag, and with no other octet (X.690, 8.1.2).
pub fn errors()
    ensures kdc_req_body { HasErrorsOf ⟦<KdcReqBody as DerEncode>⟧.error ⟦<<KdcReqBody as Sequence>::Fields as Fields>⟧ }
    ensures kdc_req { HasErrorsOf ⟦<KdcReq as DerEncode>⟧.error ⟦<<KdcReq as Sequence>::Fields as Fields>⟧ }
    ensures kdc_rep { HasErrorsOf ⟦<KdcRep as DerEncode>⟧.error ⟦<<KdcRep as Sequence>::Fields as Fields>⟧ }
    ensures enc_kdc_rep_part { HasErrorsOf ⟦<EncKdcRepPart as DerEncode>⟧.error ⟦<<EncKdcRepPart as Sequence>::Fields as Fields>⟧ }
    ensures kdc_req_body_tag { HasTag 48 ⟦<KdcReqBody as DerEncode>⟧.first }
    ensures kdc_req_tag { HasTag 48 ⟦<KdcReq as DerEncode>⟧.first }
    ensures kdc_rep_tag { HasTag 48 ⟦<KdcRep as DerEncode>⟧.first }
    ensures enc_kdc_rep_part_tag { HasTag 48 ⟦<EncKdcRepPart as DerEncode>⟧.first }
{}

/// `==` on each struct: it returns true for equal values and for no others.
pub fn equality()
    ensures kdc_req_body { DecidesEqual ⟦<KdcReqBody as PartialEq>⟧.eq }
    ensures kdc_req { DecidesEqual ⟦<KdcReq as PartialEq>⟧.eq }
    ensures kdc_rep { DecidesEqual ⟦<KdcRep as PartialEq>⟧.eq }
    ensures enc_kdc_rep_part { DecidesEqual ⟦<EncKdcRepPart as PartialEq>⟧.eq }
{
    shared_equality();
    padata_equality();
}
