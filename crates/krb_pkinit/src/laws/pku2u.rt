//! Lemmas about PKU2U.

ghost use Rattle.krb_der.specs.FieldErrors.{HasErrorsOf};
ghost use Rattle.krb_der.specs.Equality.{DecidesEqual};
ghost use Rattle.krb_der.specs.Tags.{HasTag};

use crate::pkinit::{KrbFinished, Pku2uNegoBody, Pku2uNegoRep, Pku2uNegoReq, Pku2uNegoReqMetadata};
use krb_der::DerEncode;
use krb_der::composite::{Fields, Sequence};
use krb_types::laws::equality as shared_equality;

/// The first error of each struct is that of a SEQUENCE of its fields (X.690, 8.9): its tag, then its fields in order, then
/// trailing octets. Its encodings begin with that tag, and with no other octet (X.690, 8.1.2).
pub fn errors()
    ensures pku2u_nego_req_metadata { HasErrorsOf ⟦<Pku2uNegoReqMetadata as DerEncode>⟧.error ⟦<<Pku2uNegoReqMetadata as Sequence>::Fields as Fields>⟧ }
    ensures pku2u_nego_body { HasErrorsOf ⟦<Pku2uNegoBody as DerEncode>⟧.error ⟦<<Pku2uNegoBody as Sequence>::Fields as Fields>⟧ }
    ensures pku2u_nego_req { HasErrorsOf ⟦<Pku2uNegoReq as DerEncode>⟧.error ⟦<<Pku2uNegoReq as Sequence>::Fields as Fields>⟧ }
    ensures pku2u_nego_rep { HasErrorsOf ⟦<Pku2uNegoRep as DerEncode>⟧.error ⟦<<Pku2uNegoRep as Sequence>::Fields as Fields>⟧ }
    ensures krb_finished { HasErrorsOf ⟦<KrbFinished as DerEncode>⟧.error ⟦<<KrbFinished as Sequence>::Fields as Fields>⟧ }
    ensures pku2u_nego_req_metadata_tag { HasTag 48 ⟦<Pku2uNegoReqMetadata as DerEncode>⟧.first }
    ensures pku2u_nego_body_tag { HasTag 48 ⟦<Pku2uNegoBody as DerEncode>⟧.first }
    ensures pku2u_nego_req_tag { HasTag 48 ⟦<Pku2uNegoReq as DerEncode>⟧.first }
    ensures pku2u_nego_rep_tag { HasTag 48 ⟦<Pku2uNegoRep as DerEncode>⟧.first }
    ensures krb_finished_tag { HasTag 48 ⟦<KrbFinished as DerEncode>⟧.first }
{}

/// `==` on each struct: it returns true for equal values and for no others.
pub fn equality()
    ensures pku2u_nego_req_metadata { DecidesEqual ⟦<Pku2uNegoReqMetadata as PartialEq>⟧.eq }
    ensures pku2u_nego_body { DecidesEqual ⟦<Pku2uNegoBody as PartialEq>⟧.eq }
    ensures pku2u_nego_req { DecidesEqual ⟦<Pku2uNegoReq as PartialEq>⟧.eq }
    ensures pku2u_nego_rep { DecidesEqual ⟦<Pku2uNegoRep as PartialEq>⟧.eq }
    ensures krb_finished { DecidesEqual ⟦<KrbFinished as PartialEq>⟧.eq }
{
    shared_equality();
}
