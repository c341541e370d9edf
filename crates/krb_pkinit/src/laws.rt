//! Lemmas about the definitions: each alias is the type that its standard names.

ghost use Rattle.std.specs.Prelude.{◌≡◌, List, ℕ};
ghost use Rattle.krb_der.specs.Asn1.{explicit, octet_string};
ghost use Rattle.krb_der.specs.Choice.{ChoiceError};
ghost use Rattle.krb_der.specs.FieldErrors.{HasErrorsOf, SameError};
ghost use Rattle.krb_der.specs.Equality.{DecidesEqual};
ghost use Rattle.krb_der.specs.Tags.{HasTag, HasTags};
ghost use Rattle.krb_der_x509.specs.Implicit.{implicit};

pub mod dh_keys;
pub mod pku2u;

use crate::pkinit::{
    AuthPack, DhAuthPack, DhNonce, DhRepInfo, DhReqInfo, EcAuthPack, ExternalPrincipalIdentifier,
    KdcDhKeyInfo, PaPkAsRep, PaPkAsReq, PkAuthenticator,
};
use krb_der::composite::{Fields, Sequence};
use krb_der::{Der, DerEncode, ExplicitContextTag0, OctetStringAsn1};
use krb_der_x509::laws::equality as algorithm_equality;
use krb_der_x509::{ImplicitContextTag1, SubjectPublicKeyInfo};

/// The aliases (RFC 4556, 3.2.1; RFC 5349, 4).
pub fn aliases()
    ensures dh_nonce { (v : List ℕ) → ⟦<DhNonce as DerEncode>⟧.enc v ≡ octet_string v }
    ensures dh_auth_pack { (v : _) → ⟦<DhAuthPack as DerEncode>⟧.enc v ≡ ⟦<AuthPack<DhReqInfo> as DerEncode>⟧.enc v }
    ensures ec_auth_pack { (v : _) → ⟦<EcAuthPack as DerEncode>⟧.enc v ≡ ⟦<AuthPack<SubjectPublicKeyInfo> as DerEncode>⟧.enc v }
{}

/// The choice of a KDC's reply is encoded as what it holds, under its tag (RFC 4556, 3.2.3).
pub fn answers()
    ensures dh_info { (v : _) → ⟦<PaPkAsRep as DerEncode>⟧.enc (PaPkAsRep.DhInfo v) ≡ explicit 0 (⟦<DhRepInfo as DerEncode>⟧.enc v) }
    ensures enc_key_pack { (v : List ℕ) → ⟦<PaPkAsRep as DerEncode>⟧.enc (PaPkAsRep.EncKeyPack v) ≡ implicit 1 v }
{}

/// The first error of each struct is that of a SEQUENCE of its fields (X.690, 8.9): its tag, then its fields in order, then
/// trailing octets. Its encodings begin with that tag, and with no other octet (X.690, 8.1.2).
pub fn errors()
    ensures external_principal_identifier { HasErrorsOf ⟦<ExternalPrincipalIdentifier as DerEncode>⟧.error
        ⟦<<ExternalPrincipalIdentifier as Sequence>::Fields as Fields>⟧ }
    ensures pa_pk_as_req { HasErrorsOf ⟦<PaPkAsReq as DerEncode>⟧.error ⟦<<PaPkAsReq as Sequence>::Fields as Fields>⟧ }
    ensures pk_authenticator { HasErrorsOf ⟦<PkAuthenticator as DerEncode>⟧.error ⟦<<PkAuthenticator as Sequence>::Fields as Fields>⟧ }
    ensures dh_rep_info { HasErrorsOf ⟦<DhRepInfo as DerEncode>⟧.error ⟦<<DhRepInfo as Sequence>::Fields as Fields>⟧ }
    ensures kdc_dh_key_info { HasErrorsOf ⟦<KdcDhKeyInfo as DerEncode>⟧.error ⟦<<KdcDhKeyInfo as Sequence>::Fields as Fields>⟧ }
    ensures external_principal_identifier_tag { HasTag 48 ⟦<ExternalPrincipalIdentifier as DerEncode>⟧.first }
    ensures pa_pk_as_req_tag { HasTag 48 ⟦<PaPkAsReq as DerEncode>⟧.first }
    ensures pk_authenticator_tag { HasTag 48 ⟦<PkAuthenticator as DerEncode>⟧.first }
    ensures dh_rep_info_tag { HasTag 48 ⟦<DhRepInfo as DerEncode>⟧.first }
    ensures kdc_dh_key_info_tag { HasTag 48 ⟦<KdcDhKeyInfo as DerEncode>⟧.first }
{}

/// The first error of what a client signs, with a public key of either kind (X.690, 8.9; RFC 4556, 3.2.1).
pub fn auth_pack_errors<C: Der + Drop>()
    ensures error { HasErrorsOf ⟦<AuthPack<C> as DerEncode>⟧.error ⟦<<AuthPack<C> as Sequence>::Fields as Fields>⟧ }
    ensures tag { HasTag 48 ⟦<AuthPack<C> as DerEncode>⟧.first }
{}

/// The first error of the choice of a KDC's reply (X.690, 8.13; RFC 4556, 3.2.3): the tag is neither's, or it is that of
/// what has the tag. Its encodings begin with one of the two.
pub fn pa_pk_as_rep_errors()
    ensures error { SameError ⟦<PaPkAsRep as DerEncode>⟧.error
        (ChoiceError 160 129 ⟦<ExplicitContextTag0<DhRepInfo> as DerEncode>⟧.error ⟦<ImplicitContextTag1<OctetStringAsn1> as DerEncode>⟧.error) }
    ensures tags { HasTags 160 129 ⟦<PaPkAsRep as DerEncode>⟧.first }
{}

/// `==` on each struct and on the choice: it returns true for equal values and for no others.
pub fn equality()
    ensures external_principal_identifier { DecidesEqual ⟦<ExternalPrincipalIdentifier as PartialEq>⟧.eq }
    ensures pa_pk_as_req { DecidesEqual ⟦<PaPkAsReq as PartialEq>⟧.eq }
    ensures pk_authenticator { DecidesEqual ⟦<PkAuthenticator as PartialEq>⟧.eq }
    ensures dh_rep_info { DecidesEqual ⟦<DhRepInfo as PartialEq>⟧.eq }
    ensures kdc_dh_key_info { DecidesEqual ⟦<KdcDhKeyInfo as PartialEq>⟧.eq }
    ensures pa_pk_as_rep { DecidesEqual ⟦<PaPkAsRep as PartialEq>⟧.eq }
{}

/// `==` on what a client signs: it returns true for equal values and for no others, where that of the public key does.
pub fn auth_pack_equality<C: PartialEq>()
    ensures { DecidesEqual C.eq → DecidesEqual ⟦<AuthPack<C> as PartialEq>⟧.eq }
{
    equality();
    algorithm_equality();
}
