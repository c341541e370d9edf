//! OPTIONAL.

/// An optional field of a sequence, as `Optional<Option<T>>` (X.680, 25.5): `None` is written as no octets.
///
/// It is not `DerEncode` by itself: whether it is present depends on its place in a sequence.
#[derive(Debug, Clone, Drop, PartialEq, Eq)]
pub struct Optional<T>(pub T);
