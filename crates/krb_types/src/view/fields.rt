//! What the fields of messages hold, without the tags and the wrappers around it.

ghost use Rattle.std.specs.Prelude.{◌≡◌, Option, None, Some, MatchOption};

use krb_der::{ApplicationTag, Asn1SequenceOf, ExplicitContextTag, Optional};

/// A value under a tag.
pub trait Tagged {
    /// What is under the tag.
    type Value;

    /// What is under the tag.
    ghost value: { Self → Self.Value };

    /// What is under the tag.
    fn get(&self) -> &Self::Value
        ensures { result.now ≡ value self.now };
}

/// A value under an explicit context tag (X.690, 8.14).
impl<T, N> Tagged for ExplicitContextTag<T, N> {
    type Value = T;

    ghost value = { λ t. t };

    fn get(&self) -> &T {
        &self.0
    }
}

/// A value under an application tag (X.690, 8.14).
impl<T, const N: u8> Tagged for ApplicationTag<T, N> {
    type Value = T;

    ghost value = { λ t. t };

    fn get(&self) -> &T {
        &self.0
    }
}

/// A field that may be absent (X.680, 25.5).
pub trait Present {
    /// What is under the tag of the field.
    type Value;

    /// What is under the tag of the field, where it is present.
    ghost value: { Self → Option Self.Value };

    /// What is under the tag of the field; `None` where the field is absent.
    fn get(&self) -> Option<&Self::Value>
        ensures { MatchOption result (value self.now ≡ None) (λ v. value self.now ≡ Some v.now) };
}

impl<T, N> Present for Optional<Option<ExplicitContextTag<T, N>>> {
    type Value = T;

    ghost value = { λ f. f.0 };

    fn get(&self) -> Option<&T> {
        match &self.0 {
            Some(tagged) => Some(&tagged.0),
            None => None,
        }
    }
}

/// The items of a list (X.690, 8.10), in order.
pub fn items<T>(list: &Asn1SequenceOf<T>) -> &[T]
    ensures { result.now ≡ list.now }
{
    list.0.as_slice()
}
