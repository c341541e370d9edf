//! Messages, or the KRB-ERRORs that come in their place.

ghost use Rattle.std.specs.Prelude.{◌≡◌, ◌++◌, ◌<◌, ◌^◌, List, ℕ, length, Ok, Err, IfOk, IfErr, MatchResult};
ghost use Rattle.krb_der.specs.Whole.{Answers, FailsWith, NoDevice};
ghost use Rattle.krb_der_core.specs.Errors.{OrMemory};
ghost use Rattle.krb_der_core.specs.declared.error.Asn1DerError.{Asn1DerError};
ghost use Rattle.krb_der_core.specs.declared.error.Asn1DerError.TheVariants.{InvalidData, TruncatedData};
ghost use Rattle.krb_messages.specs.Results.{ErrorOf, ErrorOfBoth, IsNoEncoding};

use crate::messages::KrbError;
use krb_der::{Asn1DerError, Der, DerEncode, from_bytes};
use std::alloc::Global;

/// What a client asked for, or the KRB-ERROR that came in its place (RFC 4120, 3.1.3 and 3.1.4).
pub type KrbResult<T> = Result<T, KrbError>;

/// Results that are read from octets.
pub trait ResultExt<T: Der + Drop> {
    /// The value, or else the KRB-ERROR, whose encoding is the octets.
    ///
    /// On other octets the error is that of reading them as a KRB-ERROR, by `from_bytes`: a proper prefix of one is
    /// `TruncatedData`, one with trailing octets `InvalidData`, and else the first error is returned, from the left. `Io` is never
    /// returned. `OutOfMemory` is returned at once, also while the value is read, and never as a KRB-ERROR.
    fn deserialize(alloc: Global, octets: &[u8]) -> Result<KrbResult<T>, Asn1DerError>
        ensures valid { IfOk result (λ r. MatchResult r T.is_value ⟦<KrbError as DerEncode>⟧.is_value) }
        ensures found { IfOk result (λ r. MatchResult r (λ v. octets.now ≡ T.enc v) (λ e. octets.now ≡ ⟦<KrbError as DerEncode>⟧.enc e)) }
        ensures error { IfOk result (λ r. IfErr r (λ e. IsNoEncoding T.is_value T.enc octets.now)) }
        ensures reads_value { (v : T) → T.is_value v → octets.now ≡ T.enc v → Answers result (Ok v) }
        ensures reads_error { IsNoEncoding T.is_value T.enc octets.now → (e : _) → ⟦<KrbError as DerEncode>⟧.is_value e
            → octets.now ≡ ⟦<KrbError as DerEncode>⟧.enc e → Answers result (Err e) }
        ensures cut { IsNoEncoding T.is_value T.enc octets.now → (e : _) (rest : List ℕ) → ⟦<KrbError as DerEncode>⟧.is_value e
            → 0 < length rest → length (⟦<KrbError as DerEncode>⟧.enc e) < 2 ^ 64
            → ⟦<KrbError as DerEncode>⟧.enc e ≡ octets.now ++ rest → FailsWith result TruncatedData }
        ensures more { IsNoEncoding T.is_value T.enc octets.now → (e : _) (rest : List ℕ) → ⟦<KrbError as DerEncode>⟧.is_value e → 0 < length rest
            → octets.now ≡ ⟦<KrbError as DerEncode>⟧.enc e ++ rest → FailsWith result InvalidData }
        ensures no_device { IfErr result NoDevice }
        ensures wrong_value { IfOk result (λ r. IfErr r (λ e. (d : Asn1DerError) × ErrorOf ⟦<T as DerEncode>⟧ octets.now d)) }
        ensures first_error { IfErr result (OrMemory (ErrorOfBoth ⟦<T as DerEncode>⟧ ⟦<KrbError as DerEncode>⟧ octets.now)) };
}

impl<T: Der + Drop> ResultExt<T> for KrbResult<T> {
    fn deserialize(alloc: Global, octets: &[u8]) -> Result<KrbResult<T>, Asn1DerError> {
        match from_bytes::<T>(alloc, octets) {
            Ok(value) => Ok(Ok(value)),
            Err(Asn1DerError::OutOfMemory) => Err(Asn1DerError::OutOfMemory),
            Err(_) => Ok(Err(from_bytes::<KrbError>(alloc, octets)?)),
        }
    }
}
