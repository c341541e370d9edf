//! Lemmas: functions with no body, whose contracts state what holds of the definitions.

ghost use Rattle.std.specs.Prelude.{◌≡◌, ◌↔◌, ℕ, List, Result, IfOk, IfErr, map};
ghost use Rattle.krb_pac.specs.Equality.{ClonesValue, DecidesEqual};
ghost use Rattle.krb_pac.specs.Kind.{code};
ghost use Rattle.krb_pac.specs.Layout.{Buffer, PacIs};
ghost use Rattle.krb_pac.specs.Numbered.{IsOfNumber, NumberedBuffer, NumberedPacIs, with_number};
ghost use Rattle.krb_pac.specs.Rejected.{AreAlike, AreOneOrMemory, IsTypeOf, PacRejected};
ghost use Rattle.krb_pac.specs.Written.{PacPut};
ghost use Rattle.krb_pac.specs.declared.error.PacError.TheVariants as errors;

use crate::buffer::PacBuffer;
use crate::error::PacError;
use crate::info::PacInfoBuffer;
use crate::kind::PacBufferType;
use crate::pac::Pac;

/// Octets are one PAC at most, and what a PAC is written as is that PAC alone.
pub fn readings()
    ensures one { (b : List ℕ) (pac read : List Buffer) → PacIs b pac → PacIs b read → read ≡ pac }
    ensures read_back { (b : List ℕ) (pac read : List Buffer) → PacPut pac b → PacIs b read → read ≡ pac }
{}

/// Octets that are a PAC have no error but `OutOfMemory`, and other octets have one first error.
pub fn rejections()
    ensures no_pac { (b : List ℕ) (pac : List Buffer) (e : PacError) → PacIs b pac → PacRejected b e → e ≡ errors.OutOfMemory }
    ensures one { (b : List ℕ) (e f : PacError) → PacRejected b e → PacRejected b f → AreOneOrMemory e f }
{}

/// What `Pac::deserialize` reads of octets and what `PacView::new` reads of them is one PAC, or both return one error, allocation
/// failures aside.
pub fn views()
    ensures { (b : List ℕ) (read view : Result (List Buffer) PacError) → IfOk read (PacIs b) → IfErr read (PacRejected b)
        → IfOk view (PacIs b) → IfErr view (PacRejected b) → AreAlike read view }
{}

/// A PAC that `Pac::deserialize` reads, `NumberedPacView::new` reads too, with the same buffers in the same order, each type as its number
/// and no other buffers. Where it reads one that `Pac::deserialize` refuses, the reason is a number that no type has, or memory.
pub fn all_types()
    ensures same { (b : List ℕ) (pac : List Buffer) → PacIs b pac → NumberedPacIs b (map with_number pac) }
    ensures one { (b : List ℕ) (pac read : List NumberedBuffer) → NumberedPacIs b pac → NumberedPacIs b read → read ≡ pac }
    ensures refused { (b : List ℕ) (pac : List NumberedBuffer) (e : PacError) → NumberedPacIs b pac → PacRejected b e → IsOfNumber e }
{}

/// `==` is true of equal values, and of no others.
pub fn equality()
    ensures kind { DecidesEqual ⟦<PacBufferType as PartialEq>⟧.eq }
    ensures info_buffer { DecidesEqual ⟦<PacInfoBuffer as PartialEq>⟧.eq }
    ensures buffer { DecidesEqual ⟦<PacBuffer as PartialEq>⟧.eq }
    ensures pac { DecidesEqual ⟦<Pac as PartialEq>⟧.eq }
{}

/// The types by their numbers (MS-PAC 2.4): each number is read as its type, and no other number is; each type is written as its
/// number.
pub fn numbers()
    ensures from_u32 { (n : ℕ) (answer : Result PacBufferType PacError) → ⟦<PacBufferType as TryFrom<u32>>⟧.try_from_gives n answer ↔ IsTypeOf n answer }
    ensures into_u32 { (kind : PacBufferType) (n : ℕ) → ⟦<u32 as From<PacBufferType>>⟧.from_gives kind n ↔ n ≡ code kind }
{}

/// A clone is the value again.
pub fn clones()
    ensures kind { ClonesValue ⟦<PacBufferType as Clone>⟧.is_clone }
    ensures info_buffer { ClonesValue ⟦<PacInfoBuffer as Clone>⟧.is_clone }
{}
