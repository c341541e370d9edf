//! Lemmas about the definitions: each alias is the type that its standard names.

ghost use Rattle.std.specs.Prelude.{◌≡◌, ℕ, ℤ, List};
ghost use Rattle.krb_der.specs.Asn1.{application, bit_string, general_string, generalized_time, integer, sequence_of};
ghost use Rattle.krb_der.specs.BitString.{Bits};
ghost use Rattle.krb_der.specs.FieldErrors.{HasErrorsOf};
ghost use Rattle.krb_der.specs.Equality.{DecidesEqual};
ghost use Rattle.krb_der.specs.GeneralizedTime.{Time};
ghost use Rattle.krb_der.specs.Tags.{HasTag};

pub mod pre_authentication;

use crate::data_types::{
    ApOptions, AuthorizationData, AuthorizationDataInner, ChangePasswdData, Checksum,
    EncryptedData, EncryptionKey, HostAddress, HostAddresses, KerbAdRestrictionEntry,
    KerberosFlags, KerberosStringAsn1, KerberosTime, LastReq, LastReqInner, Microseconds,
    PrincipalName, Realm, Ticket, TicketInner, TransitedEncoding,
};
use krb_der::DerEncode;
use krb_der::composite::{Fields, Sequence};

/// The aliases of simple types (RFC 4120, 5.2.1 to 5.2.4, 5.2.8 and 5.5.1).
pub fn simple_types()
    ensures kerberos_string { (v : List ℕ) → ⟦<KerberosStringAsn1 as DerEncode>⟧.enc v ≡ general_string v }
    ensures realm { (v : List ℕ) → ⟦<Realm as DerEncode>⟧.enc v ≡ general_string v }
    ensures kerberos_time { (v : Time) → ⟦<KerberosTime as DerEncode>⟧.enc v ≡ generalized_time v }
    ensures microseconds { (v : ℤ) → ⟦<Microseconds as DerEncode>⟧.enc v ≡ integer v }
    ensures kerberos_flags { (v : Bits) → ⟦<KerberosFlags as DerEncode>⟧.enc v ≡ bit_string v }
    ensures ap_options { (v : Bits) → ⟦<ApOptions as DerEncode>⟧.enc v ≡ bit_string v }
{}

/// The aliases of lists (RFC 4120, 5.2.5, 5.2.6 and 5.4.2).
pub fn lists()
    ensures host_addresses { (v : _) → ⟦<HostAddresses as DerEncode>⟧.enc v ≡ sequence_of ⟦<HostAddress as DerEncode>⟧.enc v }
    ensures authorization_data { (v : _) → ⟦<AuthorizationData as DerEncode>⟧.enc v ≡ sequence_of ⟦<AuthorizationDataInner as DerEncode>⟧.enc v }
    ensures last_req { (v : _) → ⟦<LastReq as DerEncode>⟧.enc v ≡ sequence_of ⟦<LastReqInner as DerEncode>⟧.enc v }
{}

/// The aliases of structs under an application tag (RFC 4120, 5.3).
pub fn structs()
    ensures ticket { (v : _) → ⟦<Ticket as DerEncode>⟧.enc v ≡ application 1 (⟦<TicketInner as DerEncode>⟧.enc v) }
{}

/// The first error of each struct is that of a SEQUENCE of its fields (X.690, 8.9): its tag, then its fields in order, then
/// trailing octets. Its encodings begin with that tag, and with no other octet (X.690, 8.1.2).
pub fn errors()
    ensures host_address { HasErrorsOf ⟦<HostAddress as DerEncode>⟧.error ⟦<<HostAddress as Sequence>::Fields as Fields>⟧ }
    ensures authorization_data { HasErrorsOf ⟦<AuthorizationDataInner as DerEncode>⟧.error ⟦<<AuthorizationDataInner as Sequence>::Fields as Fields>⟧ }
    ensures restriction { HasErrorsOf ⟦<KerbAdRestrictionEntry as DerEncode>⟧.error ⟦<<KerbAdRestrictionEntry as Sequence>::Fields as Fields>⟧ }
    ensures checksum { HasErrorsOf ⟦<Checksum as DerEncode>⟧.error ⟦<<Checksum as Sequence>::Fields as Fields>⟧ }
    ensures encrypted_data { HasErrorsOf ⟦<EncryptedData as DerEncode>⟧.error ⟦<<EncryptedData as Sequence>::Fields as Fields>⟧ }
    ensures encryption_key { HasErrorsOf ⟦<EncryptionKey as DerEncode>⟧.error ⟦<<EncryptionKey as Sequence>::Fields as Fields>⟧ }
    ensures last_req { HasErrorsOf ⟦<LastReqInner as DerEncode>⟧.error ⟦<<LastReqInner as Sequence>::Fields as Fields>⟧ }
    ensures principal_name { HasErrorsOf ⟦<PrincipalName as DerEncode>⟧.error ⟦<<PrincipalName as Sequence>::Fields as Fields>⟧ }
    ensures change_passwd_data { HasErrorsOf ⟦<ChangePasswdData as DerEncode>⟧.error ⟦<<ChangePasswdData as Sequence>::Fields as Fields>⟧ }
    ensures ticket { HasErrorsOf ⟦<TicketInner as DerEncode>⟧.error ⟦<<TicketInner as Sequence>::Fields as Fields>⟧ }
    ensures transited_encoding { HasErrorsOf ⟦<TransitedEncoding as DerEncode>⟧.error ⟦<<TransitedEncoding as Sequence>::Fields as Fields>⟧ }
    ensures host_address_tag { HasTag 48 ⟦<HostAddress as DerEncode>⟧.first }
    ensures authorization_data_tag { HasTag 48 ⟦<AuthorizationDataInner as DerEncode>⟧.first }
    ensures restriction_tag { HasTag 48 ⟦<KerbAdRestrictionEntry as DerEncode>⟧.first }
    ensures checksum_tag { HasTag 48 ⟦<Checksum as DerEncode>⟧.first }
    ensures encrypted_data_tag { HasTag 48 ⟦<EncryptedData as DerEncode>⟧.first }
    ensures encryption_key_tag { HasTag 48 ⟦<EncryptionKey as DerEncode>⟧.first }
    ensures last_req_tag { HasTag 48 ⟦<LastReqInner as DerEncode>⟧.first }
    ensures principal_name_tag { HasTag 48 ⟦<PrincipalName as DerEncode>⟧.first }
    ensures change_passwd_data_tag { HasTag 48 ⟦<ChangePasswdData as DerEncode>⟧.first }
    ensures ticket_tag { HasTag 48 ⟦<TicketInner as DerEncode>⟧.first }
    ensures transited_encoding_tag { HasTag 48 ⟦<TransitedEncoding as DerEncode>⟧.first }
{}

/// `==` on each struct: it returns true for equal values and for no others.
pub fn equality()
    ensures host_address { DecidesEqual ⟦<HostAddress as PartialEq>⟧.eq }
    ensures authorization_data { DecidesEqual ⟦<AuthorizationDataInner as PartialEq>⟧.eq }
    ensures restriction { DecidesEqual ⟦<KerbAdRestrictionEntry as PartialEq>⟧.eq }
    ensures checksum { DecidesEqual ⟦<Checksum as PartialEq>⟧.eq }
    ensures encrypted_data { DecidesEqual ⟦<EncryptedData as PartialEq>⟧.eq }
    ensures encryption_key { DecidesEqual ⟦<EncryptionKey as PartialEq>⟧.eq }
    ensures last_req { DecidesEqual ⟦<LastReqInner as PartialEq>⟧.eq }
    ensures principal_name { DecidesEqual ⟦<PrincipalName as PartialEq>⟧.eq }
    ensures change_passwd_data { DecidesEqual ⟦<ChangePasswdData as PartialEq>⟧.eq }
    ensures ticket { DecidesEqual ⟦<TicketInner as PartialEq>⟧.eq }
    ensures transited_encoding { DecidesEqual ⟦<TransitedEncoding as PartialEq>⟧.eq }
{}
