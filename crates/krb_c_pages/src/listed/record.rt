//! What C is told of a value of a page.

ghost use Rattle.std.specs.Prelude.{◌≡◌};
ghost use Rattle.krb_c_pages.specs.Listed.{flag, form_number, number_of, offset_of, size_of, told};

use krb_message_fields::places::Place;
use krb_show::Form;

/// A struct begins.
pub const STRUCT: u32 = 1;
/// A struct ends.
pub const STRUCT_END: u32 = 2;
/// A list begins.
pub const LIST: u32 = 3;
/// A list ends.
pub const LIST_END: u32 = 4;
/// A number, or a truth value.
pub const NUMBER: u32 = 5;
/// Flags.
pub const FLAGS: u32 = 6;
/// A word without blanks, as a time.
pub const WORD: u32 = 7;
/// An object identifier.
pub const IDENTIFIER: u32 = 8;
/// A text.
pub const TEXT: u32 = 9;
/// Octets.
pub const OCTETS: u32 = 10;
/// Octets of a key, a password or a PIN.
pub const SECRET: u32 = 11;
/// Octets that are encrypted, or in the clear where their encryption type is 0.
pub const CIPHER: u32 = 12;

/// `krb_page_item` of `krb.h`: a value of a page, or where a struct or a list begins or ends. 96 octets, with no pointer in them.
#[repr(C)]
#[derive(Clone, Copy)]
pub struct PageItemRecord {
    /// How many octets stand before those that it is told of; 0 where it has no place.
    pub offset: usize,
    /// How many these are; 0 where it has no place.
    pub size: usize,
    /// How many of the octets that are handed out stand before its name.
    pub name_offset: usize,
    /// How many octets the name has.
    pub name_size: usize,
    /// How many stand before its value.
    pub value_offset: usize,
    /// How many octets the value has.
    pub value_size: usize,
    /// How many stand before the names of its number or of its flags.
    pub note_offset: usize,
    /// How many octets these have.
    pub note_size: usize,
    /// The number that it is; 0 where it has none.
    pub number: i64,
    /// Which form: one of the numbers above.
    pub form: u32,
    /// 1 where it is an item of a list, which has no name of its own.
    pub is_item: u32,
    /// 1 where it has a place.
    pub has_place: u32,
    /// 1 where it has a number of 64 bits.
    pub has_number: u32,
    /// The number of the variant of `Kind` whose numbers it has, from 0 on; -1 where these have no names.
    pub registry: i32,
    /// The number of its variant of `Role`, from 0 on.
    pub role: u32,
}

/// `krb_page_counts` of `krb.h`: how much is handed out.
#[repr(C)]
#[derive(Clone, Copy)]
pub struct ListedCounts {
    /// How many items.
    pub items: usize,
    /// How many octets.
    pub octets: usize,
}

pub(crate) fn form_number(form: Form) -> u32
    ensures { result ≡ form_number form }
{
    match form {
        Form::Struct => STRUCT,
        Form::StructEnd => STRUCT_END,
        Form::List => LIST,
        Form::ListEnd => LIST_END,
        Form::Number => NUMBER,
        Form::Flags => FLAGS,
        Form::Word => WORD,
        Form::Identifier => IDENTIFIER,
        Form::Text => TEXT,
        Form::Octets => OCTETS,
        Form::Secret => SECRET,
        Form::Cipher => CIPHER,
    }
}

/// Whether there is a place, and the place; that of none is no octets before the first.
pub(crate) fn place_of(place: Option<Place>) -> (u32, Place)
    ensures has { result.0 ≡ told place }
    ensures offset { result.1.offset ≡ offset_of place }
    ensures size { result.1.size ≡ size_of place }
{
    match place {
        Some(place) => (1, place),
        None => (0, Place { offset: 0, size: 0 }),
    }
}

/// Whether there is a number, and the number; 0 of none.
pub(crate) fn number_of(number: Option<i64>) -> (u32, i64)
    ensures has { result.0 ≡ told number }
    ensures number { result.1 ≡ number_of number }
{
    match number {
        Some(number) => (1, number),
        None => (0, 0),
    }
}

pub(crate) fn flag(is_so: bool) -> u32
    ensures { result ≡ flag is_so }
{
    if is_so { 1 } else { 0 }
}
