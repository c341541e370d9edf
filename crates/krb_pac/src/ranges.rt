//! Whether ranges have a place among octets.

ghost use Rattle.std.specs.Prelude.{◌≡◌, ℕ, ◌+◌, ◌≤◌, ◌<◌, true, false, length};
ghost use Rattle.krb_pac.specs.Marks.{IsLeft, Takes};
ghost use Rattle.krb_pac.specs.Written.{IsTrailing, HasRoom};

use crate::buffer::PacBuffer;
use crate::info::PacInfoBuffer;

/// Whether a range is all within so many octets.
pub(crate) fn lies_within(offset: u64, size: u32, len: usize) -> bool
    ensures yes { result ≡ true → offset + size ≤ len }
    ensures no { result ≡ false → len < offset + size }
{
    let len = len as u64;
    offset <= len && u64::from(size) <= len - offset
}

/// Whether the octets that an entry names are all within so many.
pub(crate) fn is_within(info: &PacInfoBuffer, len: usize) -> bool
    ensures yes { result ≡ true → info.now.offset + info.now.cb_buffer_size ≤ len }
    ensures no { result ≡ false → len < info.now.offset + info.now.cb_buffer_size }
{
    lies_within(info.offset(), info.cb_buffer_size(), len)
}

/// Whether a range lies within the octets and after the header.
pub(crate) fn has_place(p: &PacBuffer, head: usize, len: usize) -> bool
    ensures yes { result ≡ true → (p.now.info.offset + p.now.info.cb_buffer_size ≤ len) × IsTrailing head p.now }
    ensures no { result ≡ false → p.now.info.offset + p.now.info.cb_buffer_size ≤ len → IsTrailing head p.now → ⊥ }
{
    let info = p.info_buffer();
    is_within(info, len) && (info.cb_buffer_size() == 0 || info.offset() >= head as u64)
}

/// Whether an entry at `at` and its range lie within the octets and share none.
pub(crate) fn has_room(p: &PacBuffer, at: usize, len: usize) -> bool
    ensures yes { result ≡ true → HasRoom at len p.now }
    ensures no { result ≡ false → HasRoom at len p.now → ⊥ }
{
    if at > len || len - at < 16 || !is_within(p.info_buffer(), len) {
        return false;
    }
    let size = u64::from(p.info_buffer().cb_buffer_size());
    let offset = p.info_buffer().offset();
    let at = at as u64;
    if offset <= at {
        size == 0 || size <= at - offset
    } else {
        size == 0 || offset - at >= 16
    }
}

/// Marks the octets of a range as taken and returns true, or returns false where one of them is taken already.
pub(crate) fn take_range(marks: &mut [bool], at: usize, size: usize) -> bool
    requires { at + size ≤ length marks.old }
    ensures len { length marks.new ≡ length marks.old }
    ensures yes { result ≡ true → Takes at size marks.old marks.new }
    ensures no { result ≡ false → ((k : ℕ) → at ≤ k → k < at + size → IsLeft marks.old k) → ⊥ }
{
    let range = &mut marks[at..at + size];
    if range.contains(&true) {
        return false;
    }
    range.fill(true);
    true
}
