//! Lemmas about the definitions: each alias is the type that its standard names.

ghost use Rattle.std.specs.Prelude.{◌≡◌};
ghost use Rattle.krb_der.specs.Asn1.{application};
ghost use Rattle.krb_der.specs.FieldErrors.{HasErrorsOf};
ghost use Rattle.krb_der.specs.Equality.{DecidesEqual};
ghost use Rattle.krb_der.specs.Tags.{HasTag};

use crate::data_types::{
    Authenticator, AuthenticatorInner, EncApRepPart, EncApRepPartInner, EncKrbCredPart,
    EncKrbCredPartInner, EncKrbPrivPart, EncKrbPrivPartInner, EncTicketPart, EncTicketPartInner,
    KrbCredInfo,
};
use krb_der::DerEncode;
use krb_der::composite::{Fields, Sequence};
use krb_types::laws::equality as shared_equality;

/// The encrypted parts, each under its application tag (RFC 4120, 5.3, 5.5.1, 5.5.2, 5.7.1 and 5.8.1).
pub fn encrypted_parts()
    ensures authenticator { (v : _) → ⟦<Authenticator as DerEncode>⟧.enc v ≡ application 2 (⟦<AuthenticatorInner as DerEncode>⟧.enc v) }
    ensures enc_ap_rep_part { (v : _) → ⟦<EncApRepPart as DerEncode>⟧.enc v ≡ application 27 (⟦<EncApRepPartInner as DerEncode>⟧.enc v) }
    ensures enc_krb_priv_part { (v : _) → ⟦<EncKrbPrivPart as DerEncode>⟧.enc v ≡ application 28 (⟦<EncKrbPrivPartInner as DerEncode>⟧.enc v) }
    ensures enc_krb_cred_part { (v : _) → ⟦<EncKrbCredPart as DerEncode>⟧.enc v ≡ application 29 (⟦<EncKrbCredPartInner as DerEncode>⟧.enc v) }
    ensures enc_ticket_part { (v : _) → ⟦<EncTicketPart as DerEncode>⟧.enc v ≡ application 3 (⟦<EncTicketPartInner as DerEncode>⟧.enc v) }
{}

/// The first error of each struct is that of a SEQUENCE of its fields (X.690, 8.9): its tag, then its fields in order, then
/// trailing octets. Its encodings begin with that tag, and with no other octet (X.690, 8.1.2).
pub fn errors()
    ensures authenticator { HasErrorsOf ⟦<AuthenticatorInner as DerEncode>⟧.error ⟦<<AuthenticatorInner as Sequence>::Fields as Fields>⟧ }
    ensures enc_ap_rep_part { HasErrorsOf ⟦<EncApRepPartInner as DerEncode>⟧.error ⟦<<EncApRepPartInner as Sequence>::Fields as Fields>⟧ }
    ensures krb_cred_info { HasErrorsOf ⟦<KrbCredInfo as DerEncode>⟧.error ⟦<<KrbCredInfo as Sequence>::Fields as Fields>⟧ }
    ensures enc_krb_cred_part { HasErrorsOf ⟦<EncKrbCredPartInner as DerEncode>⟧.error ⟦<<EncKrbCredPartInner as Sequence>::Fields as Fields>⟧ }
    ensures enc_krb_priv_part { HasErrorsOf ⟦<EncKrbPrivPartInner as DerEncode>⟧.error ⟦<<EncKrbPrivPartInner as Sequence>::Fields as Fields>⟧ }
    ensures enc_ticket_part { HasErrorsOf ⟦<EncTicketPartInner as DerEncode>⟧.error ⟦<<EncTicketPartInner as Sequence>::Fields as Fields>⟧ }
    ensures authenticator_tag { HasTag 48 ⟦<AuthenticatorInner as DerEncode>⟧.first }
    ensures enc_ap_rep_part_tag { HasTag 48 ⟦<EncApRepPartInner as DerEncode>⟧.first }
    ensures krb_cred_info_tag { HasTag 48 ⟦<KrbCredInfo as DerEncode>⟧.first }
    ensures enc_krb_cred_part_tag { HasTag 48 ⟦<EncKrbCredPartInner as DerEncode>⟧.first }
    ensures enc_krb_priv_part_tag { HasTag 48 ⟦<EncKrbPrivPartInner as DerEncode>⟧.first }
    ensures enc_ticket_part_tag { HasTag 48 ⟦<EncTicketPartInner as DerEncode>⟧.first }
{}

/// `==` on each struct: it returns true for equal values and for no others.
pub fn equality()
    ensures authenticator { DecidesEqual ⟦<AuthenticatorInner as PartialEq>⟧.eq }
    ensures enc_ap_rep_part { DecidesEqual ⟦<EncApRepPartInner as PartialEq>⟧.eq }
    ensures krb_cred_info { DecidesEqual ⟦<KrbCredInfo as PartialEq>⟧.eq }
    ensures enc_krb_cred_part { DecidesEqual ⟦<EncKrbCredPartInner as PartialEq>⟧.eq }
    ensures enc_krb_priv_part { DecidesEqual ⟦<EncKrbPrivPartInner as PartialEq>⟧.eq }
    ensures enc_ticket_part { DecidesEqual ⟦<EncTicketPartInner as PartialEq>⟧.eq }
{
    shared_equality();
}
