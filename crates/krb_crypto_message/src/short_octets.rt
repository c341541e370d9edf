//! Derived keys and checksums, which take no memory.

ghost use Rattle.std.specs.Prelude.{◌≡◌, ℕ, ◌+◌, ◌≤◌, List, [], ◌++◌, length, take};

use std::marker::Model;

/// The octets of the longest, a key of AES256.
const LONGEST: usize = 32;

/// At most 32 octets, which take no memory: a derived key, or a checksum under one. As a value they are a list.
#[derive(Drop)]
pub(crate) struct ShortOctets {
    octets: [u8; LONGEST],
    length: usize,
}

impl Model for ShortOctets {
    ghost Value = { List ℕ };

    ghost view = { λ k. take k.length k.octets };

    ghost invariant = { λ k. k.length ≤ 32 };
}

impl ShortOctets {
    /// No octet yet.
    pub(crate) fn empty() -> ShortOctets
        ensures { result ≡ [] }
    {
        ShortOctets {
            octets: [0; LONGEST],
            length: 0,
        }
    }

    /// Puts the octets after those that are there.
    pub(crate) fn push(&mut self, part: &[u8])
        requires { length self.old + length part.now ≤ 32 }
        ensures { self.new ≡ self.old ++ part.now }
    {
        let end = self.length + part.len();
        self.octets[self.length..end].copy_from_slice(part);
        self.length = end;
    }

    /// The octets.
    pub(crate) fn as_slice(&self) -> &[u8]
        ensures { result.now ≡ self.now }
    {
        &self.octets[..self.length]
    }
}
