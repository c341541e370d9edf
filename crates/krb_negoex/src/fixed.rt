//! Parts with no payload, which are read without memory.

ghost use Rattle.std.specs.Prelude.{◌≡◌, ◌≤◌, ◌<◌, length, drop, IfOk, IfErr};
ghost use Rattle.krb_negoex.specs.View.{IsNotMemory};

use crate::numbers::{u32_prefix, u64_prefix};
use crate::parts::{Both, Lay};
use std::io;

/// What has no payload.
pub(crate) trait Fixed: Lay {
    /// The value that the octets begin with, and the octets after it. The first error decides, and none of them is of memory.
    fn fixed_prefix<'a>(octets: &'a [u8], message: &[u8]) -> io::Result<(Self, &'a [u8])>
        ensures found { IfOk result (λ p. Self.layout.part octets.now message.now p.0) }
        ensures trailing { IfOk result (λ p. p.1.now ≡ drop Self.layout.width octets.now) }
        ensures rejected { IfErr result (Self.layout.rejects octets.now message.now) }
        ensures memory { IfErr result IsNotMemory };
}

impl Fixed for u32 {
    fn fixed_prefix<'a>(octets: &'a [u8], _message: &[u8]) -> io::Result<(u32, &'a [u8])> {
        u32_prefix(octets)
    }
}

impl Fixed for u64 {
    fn fixed_prefix<'a>(octets: &'a [u8], _message: &[u8]) -> io::Result<(u64, &'a [u8])> {
        u64_prefix(octets)
    }
}

impl<A: Fixed + Drop, B: Fixed> Fixed for Both<A, B> {
    fn fixed_prefix<'a>(octets: &'a [u8], message: &[u8]) -> io::Result<(Both<A, B>, &'a [u8])> {
        let (first, trailing) = A::fixed_prefix(octets, message)?;
        let (second, trailing) = B::fixed_prefix(trailing, message)?;
        Ok((Both(first, second), trailing))
    }
}
