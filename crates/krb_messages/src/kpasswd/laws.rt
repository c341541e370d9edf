//! Lemmas about the definitions.

ghost use Rattle.std.specs.Prelude.{◌≡◌, ◌++◌, ◌<◌, ◌^◌, List, ℕ, length};
ghost use Rattle.krb_der.specs.Equality.{DecidesEqual};
ghost use Rattle.krb_messages.specs.Frame.{HoldsValues, IsFrameOf, IsFramed, frame};
ghost use Rattle.krb_messages.specs.Rejected.{FrameError};
ghost use Rattle.krb_messages.specs.declared.kpasswd.error.ReadFrameError.{ReadFrameError};

use crate::application_laws::equality as application_equality;
use crate::kpasswd::frame::KrbPrivMessage;
use crate::laws::equality as message_equality;
use crate::messages::{ApMessage, KrbPriv};
use krb_der::DerEncode;

/// A frame with its lengths is a frame of the messages that it is made of.
pub fn written_frames()
    ensures { (ap priv : List ℕ) → IsFramed (frame ap priv) ap priv }
{}

/// Octets have at most one first error as a frame, and none where they begin with a frame. There are fewer than 2^64 octets, as in
/// any slice.
pub fn first_error()
    ensures one { (octets : List ℕ) (e d : ReadFrameError) → length octets < 2 ^ 64
        → FrameError ⟦<ApMessage as DerEncode>⟧ ⟦<KrbPriv as DerEncode>⟧ octets e
        → FrameError ⟦<ApMessage as DerEncode>⟧ ⟦<KrbPriv as DerEncode>⟧ octets d → e ≡ d }
    ensures frame { (m : KrbPrivMessage) (x rest : List ℕ) (e : ReadFrameError) → length x < 2 ^ 64
        → HoldsValues ⟦<ApMessage as DerEncode>⟧ ⟦<KrbPriv as DerEncode>⟧ m → IsFrameOf ⟦<ApMessage as DerEncode>⟧ ⟦<KrbPriv as DerEncode>⟧ m x
        → FrameError ⟦<ApMessage as DerEncode>⟧ ⟦<KrbPriv as DerEncode>⟧ (x ++ rest) e → ⊥ }
{
    errors_of_frames::<ApMessage, KrbPriv>();
}

/// The same of frames of any two types.
fn errors_of_frames<A: DerEncode, B: DerEncode>()
    ensures one { (octets : List ℕ) (e d : ReadFrameError) → length octets < 2 ^ 64
        → FrameError ⟦<A as DerEncode>⟧ ⟦<B as DerEncode>⟧ octets e → FrameError ⟦<A as DerEncode>⟧ ⟦<B as DerEncode>⟧ octets d → e ≡ d }
    ensures frame { (a : A) (b : B) (x rest : List ℕ) (e : ReadFrameError) → A.is_value a → B.is_value b → length x < 2 ^ 64
        → IsFramed x (A.enc a) (B.enc b) → FrameError ⟦<A as DerEncode>⟧ ⟦<B as DerEncode>⟧ (x ++ rest) e → ⊥ }
{}

/// `==` on frames is true exactly of equal values.
pub fn equality()
    ensures { DecidesEqual ⟦<KrbPrivMessage as PartialEq>⟧.eq }
{
    application_equality();
    message_equality();
}
