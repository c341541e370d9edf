//! Lemmas about the definitions: what is made is taken, and holds what it was made of.

ghost use Rattle.std.specs.Prelude.{◌≡◌, ◌<◌, ◌^◌, ℕ, Bool, true, false, List, length};
ghost use Rattle.krb_gss_per_message.specs.Keys.{Key, IsNewer};
ghost use Rattle.krb_gss_per_message.specs.Mic.{IsMic, IsMicOf, RefusesMic};
ghost use Rattle.krb_gss_per_message.specs.Sequence.{AreTaken, Arrival, Becomes, IsOrder, IsTaken, NeverTaken, WasTaken, Window, has};
ghost use Rattle.krb_gss_per_message.specs.Unwrap.{IsUnwrapped};
ghost use Rattle.krb_gss_per_message.specs.Wrap.{IsWrapped, IsWrappedInClear};
ghost use Rattle.krb_gss_per_message.specs.declared.error.ProtectionError.{ProtectionError};
ghost use Rattle.krb_gss_per_message.specs.declared.sequence.Order.{Order};
ghost use Rattle.krb_gss_per_message.specs.declared.sequence.Order.TheVariants as order;

/// A MIC token that a key's sender makes holds of its message, with its number; a token has one number, and where it holds it is not refused
/// but for want of memory. So `verify_mic` returns the number that `make_mic` was given (RFC 4121, 4.2.4 and 4.2.6.1).
pub fn mic_tokens()
    ensures holds { (key : Key) (number : ℕ) (message token : List ℕ) → number < 2 ^ 64 → IsMic key number message token → IsMicOf key message token number }
    ensures one_number { (key : Key) (message token : List ℕ) (m n : ℕ) → IsMicOf key message token m → IsMicOf key message token n → m ≡ n }
    ensures kept { (key : Key) (message token : List ℕ) (n : ℕ) (e : ProtectionError) → IsMicOf key message token n → RefusesMic key message token e
        → e ≡ ProtectionError.OutOfMemory }
{}

/// A Wrap token that a key's sender makes holds its message, whatever the rotation, and is sealed as it was made. So `unwrap`, which returns what a
/// token holds, returns what `wrap` and `wrap_in_clear` were given (RFC 4121, 4.2.4 and 4.2.5).
pub fn wrap_tokens()
    ensures sealed { (key : Key) (number rotation : ℕ) (confounder message token : List ℕ) → number < 2 ^ 64 → rotation < 2 ^ 16
        → length confounder ≡ 16 → IsWrapped key number rotation confounder message token → IsUnwrapped key token true number message }
    ensures in_clear { (key : Key) (number rotation : ℕ) (message token : List ℕ) → number < 2 ^ 64 → rotation < 2 ^ 16
        → IsWrappedInClear key number rotation message token → IsUnwrapped key token false number message }
{}

/// No token is both senders': one that holds under a key of one sender holds under none of the other, whatever the octets of the keys
/// (RFC 4121, 4.2.2, SentByAcceptor).
pub fn directions()
    ensures mic_tokens { (key other : Key) (message other_message token : List ℕ) (m n : ℕ) → IsMicOf key message token m
        → IsMicOf other other_message token n → key.sender ≡ other.sender }
    ensures wrap_tokens { (key other : Key) (a b : Bool) (message other_message token : List ℕ) (m n : ℕ) → IsUnwrapped key token a m message
        → IsUnwrapped other token b n other_message → key.sender ≡ other.sender }
{}

/// A sequence number that was taken is never taken again, whatever comes between; and a number is told as replayed only if it
/// was taken before, since a window in which no number was (RFC 2743, 1.2.3).
#[tactic(auto, using(crate::proofs::SequenceRuns::never_again, crate::proofs::SequenceRuns::replayed_was_taken))]
pub fn sequence_numbers()
    ensures once { (old between new : Window) (number : ℕ) (was : Order) (rest : List Arrival) → IsOrder old number was → IsTaken was
        → Becomes was old number between → AreTaken between rest new → NeverTaken number rest }
    ensures replayed { (old new : Window) (number : ℕ) (before : List Arrival) → ((n : ℕ) → has old n ≡ false) → AreTaken old before new
        → IsOrder new number order.Replayed → WasTaken number before }
{}
