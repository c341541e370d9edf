//! How many iterations are taken.

/// How many iterations of PBKDF2 a client takes, at least and at most. Whoever can send a KRB-ERROR
/// names a number: too few make a password easier to guess, and too many keep the client at work.
#[derive(Clone, Copy, PartialEq, Eq)]
pub struct Limits {
    /// The fewest.
    pub least: u32,
    /// The most.
    pub most: u32,
}

impl Limits {
    /// From 4096, the default number of RFC 3962, 4, to 2^20.
    pub const USUAL: Limits = Limits {
        least: 4096,
        most: 1 << 20,
    };
}
