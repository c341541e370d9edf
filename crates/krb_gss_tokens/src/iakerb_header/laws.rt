//! Lemmas about the definitions: functions with no body, each of whose clauses is a fact for proofs above.

ghost use Rattle.std.specs.Prelude.{◌≡◌, ◌<◌, ◌^◌, List, length, ℕ};
ghost use Rattle.krb_der_core.specs.declared.error.Asn1DerError.{Asn1DerError};
ghost use Rattle.krb_der.specs.FieldErrors.{SameError};
ghost use Rattle.krb_der.specs.Equality.{DecidesEqual};
ghost use Rattle.krb_der.specs.Tags.{HasTag};
ghost use Rattle.krb_gss_tokens.specs.Header.{HeaderReads};
ghost use Rattle.krb_gss_tokens.specs.HeaderErrors.{IAKerbHeaderError, extensible_error};

use crate::iakerb_header::messages::IAKerbHeader;
use crate::iakerb_header::reading::known_errors;
use krb_der::DerEncode;
use krb_der::composite::{Fields, Sequence};

/// Octets are read as one header at most, and a header that was written is read from what was written, and no other is.
pub fn header_readings()
    ensures one_reading { (b : List ℕ) (v w : IAKerbHeader) → ⟦<IAKerbHeader as DerEncode>⟧.is_value v → ⟦<IAKerbHeader as DerEncode>⟧.is_value w
        → HeaderReads b v → HeaderReads b w → v ≡ w }
    ensures written { (h : IAKerbHeader) → ⟦<IAKerbHeader as DerEncode>⟧.is_value h → HeaderReads (⟦<IAKerbHeader as DerEncode>⟧.enc h) h }
    ensures read_back { (h w : IAKerbHeader) → ⟦<IAKerbHeader as DerEncode>⟧.is_value h → ⟦<IAKerbHeader as DerEncode>⟧.is_value w
        → HeaderReads (⟦<IAKerbHeader as DerEncode>⟧.enc h) w → w ≡ h }
{}

/// The first error of a header (draft-ietf-kitten-iakerb-03, 3): its tag, then its known fields in order. What follows them
/// in the SEQUENCE is none, so that what is read as a header has no error.
pub fn errors()
    ensures iakerb_header { SameError ⟦<IAKerbHeader as DerEncode>⟧.error (extensible_error ⟦<<IAKerbHeader as Sequence>::Fields as Fields>⟧) }
    ensures iakerb_header_tag { HasTag 48 ⟦<IAKerbHeader as DerEncode>⟧.first }
    ensures one_error { (octets : List ℕ) (e d : Asn1DerError) → length octets < 2 ^ 64
        → IAKerbHeaderError ⟦<IAKerbHeader as DerEncode>⟧ octets e → IAKerbHeaderError ⟦<IAKerbHeader as DerEncode>⟧ octets d → e ≡ d }
    ensures none_where_read { (octets : List ℕ) (e : Asn1DerError) (h : IAKerbHeader) → length octets < 2 ^ 64
        → IAKerbHeaderError ⟦<IAKerbHeader as DerEncode>⟧ octets e → ⟦<IAKerbHeader as DerEncode>⟧.is_value h → HeaderReads octets h → ⊥ }
{
    known_errors::<<IAKerbHeader as Sequence>::Fields>();
}

/// `==` on headers: it returns true for equal values and for no others.
pub fn equality()
    ensures iakerb_header { DecidesEqual ⟦<IAKerbHeader as PartialEq>⟧.eq }
{}
