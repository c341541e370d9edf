//! What is laid in a message and read out of it: parts, and parts one after another.
//!
//! A type of data of one's own names its layout (`specs/Layouts.antt`), which says what its octets mean and carries the laws
//! of that: `number`, `constant`, `coded`, `octets`, `guid` for what has no payload, `vector` for a vector, `followed` for one
//! part after another, and `seen` for a struct that is seen as its fields. It then implements `Lay` and `Part`, for a struct by
//! `Both` of its fields in the order of the octets and with no proof, and `NegoexDataType` or `NegoexMessage`.

ghost use Rattle.std.specs.Prelude.{◌≡◌, ℕ, ◌++◌, ◌<◌, ◌≤◌, length, drop, IfOk, IfErr, OnOk, OnErr};
ghost use Rattle.krb_negoex.specs.Layouts.{Layout, seen, followed};
ghost use Rattle.krb_negoex.specs.Rejected.{LayRejected};

use std::alloc::Global;
use std::io;

/// What can be laid in a message: a fixed part, and a payload that is elsewhere (MS-NEGOEX 2.2.5).
pub trait Lay {
    /// What octets say in a message, and how values are laid.
    ghost layout: { Layout Self };

    /// Appends the fixed part to one vector, and the payload, which starts at the offset, to the other; returns where the
    /// payload ends. The offset and the result count octets from the message's first.
    ///
    /// `InvalidInput` where an offset or a count does not fit its 32 bits, and `OutOfMemory` where an allocation failed; both
    /// vectors are then as before.
    fn lay(
        &self,
        alloc: Global,
        offset: usize,
        fixed_part: &mut Vec<u8>,
        payload_part: &mut Vec<u8>,
    ) -> io::Result<usize>
        ensures laid { OnOk result (layout.laid offset self.now) }
        ensures end { IfOk result (λ n. n ≡ layout.after offset self.now) }
        ensures fixed { OnOk result (fixed_part.new.items ≡ fixed_part.old.items ++ layout.fixed offset self.now) }
        ensures payload { OnOk result (payload_part.new.items ≡ payload_part.old.items ++ layout.payload offset self.now) }
        ensures rejected { IfErr result (LayRejected (layout.laid offset self.now)) }
        ensures fixed_kept { OnErr result (fixed_part.new.items ≡ fixed_part.old.items) }
        ensures payload_kept { OnErr result (payload_part.new.items ≡ payload_part.old.items) };
}

/// What can be read out of a message, too.
pub trait Part: Lay {
    /// The value whose fixed part the octets begin with, and the octets after that. What the fixed part points to is read
    /// out of the message.
    ///
    /// The first error decides: `UnexpectedEof` where octets end before a fixed part does, `InvalidData` where a vector's offset
    /// lies past the message or a number is none of its field's, `InvalidInput` at a checksum's scheme, and `OutOfMemory` where
    /// an allocation failed.
    fn read_part<'a>(
        alloc: Global,
        octets: &'a [u8],
        message: &[u8],
    ) -> io::Result<(Self, &'a [u8])>
        ensures found { IfOk result (λ p. Self.layout.part octets.now message.now p.0) }
        ensures trailing { IfOk result (λ p. p.1.now ≡ drop Self.layout.width octets.now) }
        ensures rejected { IfErr result (Self.layout.rejects octets.now message.now) };
}

/// A part that can be written by itself.
pub trait Placed: Part {
    /// Where the payload is when the value is written by itself.
    ghost start: { Self → ℕ };

    /// Where the payload is when the value is written by itself, in octets from the first.
    fn payload_start(&self) -> usize
        ensures { result ≡ start self.now };
}

/// A part that is borrowed.
impl<T: Lay> Lay for &T {
    ghost layout = { seen (λ v. v.now) T.layout };

    fn lay(
        &self,
        alloc: Global,
        offset: usize,
        fixed_part: &mut Vec<u8>,
        payload_part: &mut Vec<u8>,
    ) -> io::Result<usize> {
        (*self).lay(alloc, offset, fixed_part, payload_part)
    }
}

/// A part, and the parts after it: the fixed parts one after another, and the payloads in the same order.
#[derive(Drop)]
pub struct Both<A, B>(pub A, pub B);

impl<A: Lay, B: Lay> Lay for Both<A, B> {
    ghost layout = { seen (λ v. (v.0, v.1)) (followed A.layout B.layout) };

    fn lay(
        &self,
        alloc: Global,
        offset: usize,
        fixed_part: &mut Vec<u8>,
        payload_part: &mut Vec<u8>,
    ) -> io::Result<usize> {
        let fixed_octets = fixed_part.len();
        let payload_octets = payload_part.len();
        let end = self.0.lay(alloc, offset, fixed_part, payload_part)?;
        let laid = self.1.lay(alloc, end, fixed_part, payload_part);
        if laid.is_err() {
            fixed_part.truncate(fixed_octets);
            payload_part.truncate(payload_octets);
        }
        laid
    }
}

impl<A: Part + Drop, B: Part> Part for Both<A, B> {
    fn read_part<'a>(
        alloc: Global,
        octets: &'a [u8],
        message: &[u8],
    ) -> io::Result<(Both<A, B>, &'a [u8])> {
        let (first, trailing) = A::read_part(alloc, octets, message)?;
        let (second, trailing) = B::read_part(alloc, trailing, message)?;
        Ok((Both(first, second), trailing))
    }
}
