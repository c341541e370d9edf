//! Fields at the front of octets: numbers, counted octets and names, the most significant octet first, as the files of MIT
//! Kerberos have them.
//!
//! Each call reads one field and returns it with the octets after it, a slice of the caller's. It takes no memory. A contract says
//! by a function on lists what is read (`specs/Reading.antt`), and `specs/Laws.antt` that this is what is written.

mod error;
mod number;
mod principal;
mod typed;
mod writing;

pub use error::FieldError;
pub use number::{LengthSize, counted_at, length_at, twice_at, u8_at, u16_at, u32_at};
pub use principal::{ComponentsView, PrincipalView, principal_at};
pub use typed::{TypedListView, TypedOctets, typed_at, typed_list_at};
pub use writing::{
    PrincipalParts, fits, fits_each_typed, fits_principal, fits_typed_list, push_counted,
    push_each_typed, push_number, push_octet, push_principal, push_twice, push_typed,
    push_typed_list,
};
