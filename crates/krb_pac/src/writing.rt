//! Writing a PAC into octets.

ghost use Rattle.std.specs.Prelude.{◌≡◌, ℕ, ◌+◌, ◌≤◌, ◌<◌, ◌^◌, ◌⊎◌, true, false, List, length, slice_index, IfOk, IfErr, IfSome};
ghost use Rattle.krb_pac.specs.Written.{PacPut, PutTwice, entry_octets, FitsEntry, padded, head};
ghost use Rattle.krb_pac.specs.Marks.{IsLeft};
ghost use Rattle.krb_pac.specs.Stands.{Stands, KeepsOutside};

use crate::buffer::PacBuffer;
use crate::error::PacError;
use crate::info::PacInfoBuffer;
use crate::ranges::{has_place, take_range};
use byteorder::{ByteOrder, LittleEndian};
use std::alloc::Global;

/// Puts octets at a place.
fn put(out: &mut [u8], at: usize, octets: &[u8])
    requires { at + length octets.now ≤ length out.old }
    ensures here { Stands out.new at octets.now }
    ensures kept { KeepsOutside at (length octets.now) out.old out.new }
    ensures len { length out.new ≡ length out.old }
{
    out[at..at + octets.len()].copy_from_slice(octets);
}

/// The sixteen octets of an entry.
pub(crate) fn entry(info: &PacInfoBuffer) -> [u8; 16]
    ensures octets { result ≡ entry_octets info.now }
    ensures fits { FitsEntry info.now }
{
    let mut octets = [0u8; 16];
    LittleEndian::write_u32(&mut octets[..4], u32::from(info.ul_type()));
    LittleEndian::write_u32(&mut octets[4..8], info.cb_buffer_size());
    LittleEndian::write_u64(&mut octets[8..16], info.offset());
    octets
}

/// The octets of the ranges, each rounded up to 8.
fn padded_size(buffers: &[PacBuffer]) -> Option<usize>
    ensures { IfSome result (λ n. n ≡ padded buffers.now) }
{
    let mut total = 0usize;
    'sizes: for p in buffers {
        let size = (p.info_buffer().cb_buffer_size() as usize + 7) / 8 * 8;
        total = total.checked_add(size)?;
    }
    Some(total)
}

/// Writes the header and the buffers over zeros, and returns whether each range has a place of its own.
///
/// Each octet of a range is marked, so the steps are as many as the octets, however many buffers there are.
fn fill(out: &mut [u8], marks: &mut [bool], buffers: &[PacBuffer]) -> bool
    requires few { length buffers.now < 2 ^ 32 }
    requires sized { length out.old ≡ head buffers.now + padded buffers.now }
    requires marks_sized { length marks.old ≡ length out.old }
    requires none_taken { (k : ℕ) → IsLeft marks.old k }
    requires zero_all { (k : ℕ) → slice_index out.old k ≡ 0 }
    ensures yes { result ≡ true → PacPut buffers.now out.new }
    ensures no { result ≡ false → (b : List ℕ) → PacPut buffers.now b → ⊥ }
{
    let head = 8 + 16 * buffers.len();
    let mut count = [0u8; 4];
    LittleEndian::write_u32(&mut count, buffers.len() as u32);
    put(out, 0, &count);
    'buffers: for i in 0..buffers.len() {
        let p = &buffers[i];
        if !has_place(p, head, out.len()) {
            return false;
        }
        let offset = p.info_buffer().offset() as usize;
        if !take_range(marks, offset, p.octets().len()) {
            return false;
        }
        put_buffer(p, out, 8 + 16 * i);
    }
    true
}

/// Puts one buffer, its entry at `at`.
pub(crate) fn put_buffer(p: &PacBuffer, out: &mut [u8], at: usize)
    requires room { at + 16 ≤ length out.old }
    requires inside { p.now.info.offset + p.now.info.cb_buffer_size ≤ length out.old }
    ensures put { PutTwice at out.old out.new p.now }
    ensures len { length out.new ≡ length out.old }
{
    put(out, at, &entry(p.info_buffer()));
    put(out, p.info_buffer().offset() as usize, p.octets());
}

/// The octets that the buffers are written as.
pub(crate) fn to_octets(alloc: Global, buffers: &[PacBuffer]) -> Result<Vec<u8>, PacError>
    requires { length buffers.now < 2 ^ 32 }
    ensures ok { IfOk result (λ v. PacPut buffers.now v.items) }
    ensures err { IfErr result (λ e. (e ≡ PacError.OutOfMemory) ⊎ ((e ≡ PacError.InvalidRange) × ((b : List ℕ) → PacPut buffers.now b → ⊥))) }
{
    let Some(ranges) = padded_size(buffers) else {
        return Err(PacError::OutOfMemory);
    };
    let Some(size) = ranges.checked_add(8 + 16 * buffers.len()) else {
        return Err(PacError::OutOfMemory);
    };
    let mut octets = vec![in alloc; 0u8; size]?;
    let mut marks = vec![in alloc; false; size]?;
    if !fill(&mut octets, &mut marks, buffers) {
        return Err(PacError::InvalidRange);
    }
    Ok(octets)
}
