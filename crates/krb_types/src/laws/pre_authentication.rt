//! Lemmas about the types of pre-authentication: each alias is the type that its standard names.

ghost use Rattle.std.specs.Prelude.{◌≡◌};
ghost use Rattle.krb_der.specs.Asn1.{sequence_of};
ghost use Rattle.krb_der.specs.FieldErrors.{HasErrorsOf};
ghost use Rattle.krb_der.specs.Equality.{ClonesValue, DecidesEqual};
ghost use Rattle.krb_der.specs.Tags.{HasTag};

use crate::data_types::{
    EncryptedData, EtypeInfo2, EtypeInfo2Entry, KerbErrorData, KerbPaPacRequest, PaData,
    PaEncTimestamp, PaEncTsEnc, PaPacOptions,
};
use krb_der::DerEncode;
use krb_der::composite::{Fields, Sequence};

/// The aliases (RFC 4120, 5.2.7.2 and 5.2.7.5).
pub fn aliases()
    ensures pa_enc_timestamp { (v : _) → ⟦<PaEncTimestamp as DerEncode>⟧.enc v ≡ ⟦<EncryptedData as DerEncode>⟧.enc v }
    ensures etype_info2 { (v : _) → ⟦<EtypeInfo2 as DerEncode>⟧.enc v ≡ sequence_of ⟦<EtypeInfo2Entry as DerEncode>⟧.enc v }
{}

/// The first error of each struct is that of a SEQUENCE of its fields (X.690, 8.9): its tag, then its fields in order, then
/// trailing octets. Its encodings begin with that tag, and with no other octet (X.690, 8.1.2).
pub fn errors()
    ensures pa_data { HasErrorsOf ⟦<PaData as DerEncode>⟧.error ⟦<<PaData as Sequence>::Fields as Fields>⟧ }
    ensures pa_enc_ts_enc { HasErrorsOf ⟦<PaEncTsEnc as DerEncode>⟧.error ⟦<<PaEncTsEnc as Sequence>::Fields as Fields>⟧ }
    ensures kerb_pa_pac_request { HasErrorsOf ⟦<KerbPaPacRequest as DerEncode>⟧.error ⟦<<KerbPaPacRequest as Sequence>::Fields as Fields>⟧ }
    ensures pa_pac_options { HasErrorsOf ⟦<PaPacOptions as DerEncode>⟧.error ⟦<<PaPacOptions as Sequence>::Fields as Fields>⟧ }
    ensures etype_info2_entry { HasErrorsOf ⟦<EtypeInfo2Entry as DerEncode>⟧.error ⟦<<EtypeInfo2Entry as Sequence>::Fields as Fields>⟧ }
    ensures kerb_error_data { HasErrorsOf ⟦<KerbErrorData as DerEncode>⟧.error ⟦<<KerbErrorData as Sequence>::Fields as Fields>⟧ }
    ensures pa_data_tag { HasTag 48 ⟦<PaData as DerEncode>⟧.first }
    ensures pa_enc_ts_enc_tag { HasTag 48 ⟦<PaEncTsEnc as DerEncode>⟧.first }
    ensures kerb_pa_pac_request_tag { HasTag 48 ⟦<KerbPaPacRequest as DerEncode>⟧.first }
    ensures pa_pac_options_tag { HasTag 48 ⟦<PaPacOptions as DerEncode>⟧.first }
    ensures etype_info2_entry_tag { HasTag 48 ⟦<EtypeInfo2Entry as DerEncode>⟧.first }
    ensures kerb_error_data_tag { HasTag 48 ⟦<KerbErrorData as DerEncode>⟧.first }
{}

/// `==` on each struct: it returns true for equal values and for no others.
pub fn equality()
    ensures pa_data { DecidesEqual ⟦<PaData as PartialEq>⟧.eq }
    ensures pa_enc_ts_enc { DecidesEqual ⟦<PaEncTsEnc as PartialEq>⟧.eq }
    ensures kerb_pa_pac_request { DecidesEqual ⟦<KerbPaPacRequest as PartialEq>⟧.eq }
    ensures pa_pac_options { DecidesEqual ⟦<PaPacOptions as PartialEq>⟧.eq }
    ensures etype_info2_entry { DecidesEqual ⟦<EtypeInfo2Entry as PartialEq>⟧.eq }
    ensures kerb_error_data { DecidesEqual ⟦<KerbErrorData as PartialEq>⟧.eq }
{}

/// A clone of each struct that has one equals the value.
pub fn clones()
    ensures { ClonesValue ⟦<KerbPaPacRequest as Clone>⟧.is_clone }
{}
