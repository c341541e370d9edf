//! Lemmas about Diffie-Hellman keys.

ghost use Rattle.krb_der.specs.FieldErrors.{HasErrorsOf};
ghost use Rattle.krb_der.specs.Equality.{DecidesEqual};
ghost use Rattle.krb_der.specs.Tags.{HasTag};

use crate::pkinit::{DhDomainParameters, DhReqInfo, DhReqKeyInfo, ValidationParams};
use krb_der::DerEncode;
use krb_der::composite::{Fields, Sequence};

/// The first error of each struct is that of a SEQUENCE of its fields (X.690, 8.9): its tag, then its fields in order, then
/// trailing octets. Its encodings begin with that tag, and with no other octet (X.690, 8.1.2).
pub fn errors()
    ensures validation_params { HasErrorsOf ⟦<ValidationParams as DerEncode>⟧.error ⟦<<ValidationParams as Sequence>::Fields as Fields>⟧ }
    ensures dh_domain_parameters { HasErrorsOf ⟦<DhDomainParameters as DerEncode>⟧.error ⟦<<DhDomainParameters as Sequence>::Fields as Fields>⟧ }
    ensures dh_req_key_info { HasErrorsOf ⟦<DhReqKeyInfo as DerEncode>⟧.error ⟦<<DhReqKeyInfo as Sequence>::Fields as Fields>⟧ }
    ensures dh_req_info { HasErrorsOf ⟦<DhReqInfo as DerEncode>⟧.error ⟦<<DhReqInfo as Sequence>::Fields as Fields>⟧ }
    ensures validation_params_tag { HasTag 48 ⟦<ValidationParams as DerEncode>⟧.first }
    ensures dh_domain_parameters_tag { HasTag 48 ⟦<DhDomainParameters as DerEncode>⟧.first }
    ensures dh_req_key_info_tag { HasTag 48 ⟦<DhReqKeyInfo as DerEncode>⟧.first }
    ensures dh_req_info_tag { HasTag 48 ⟦<DhReqInfo as DerEncode>⟧.first }
{}

/// `==` on each struct: it returns true for equal values and for no others.
pub fn equality()
    ensures validation_params { DecidesEqual ⟦<ValidationParams as PartialEq>⟧.eq }
    ensures dh_domain_parameters { DecidesEqual ⟦<DhDomainParameters as PartialEq>⟧.eq }
    ensures dh_req_key_info { DecidesEqual ⟦<DhReqKeyInfo as PartialEq>⟧.eq }
    ensures dh_req_info { DecidesEqual ⟦<DhReqInfo as PartialEq>⟧.eq }
{}
