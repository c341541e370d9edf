//! Octets of any kind that the library reads, as pages.
//!
//! `kind_of_octets` says what octets begin as, `kind_of_name` what a name is of, and `Everything::page_of` makes the page of octets of a kind.
//! `page_with_places` gives a page the places of its elements, `place_of_error` says where their first error is, and `broken_rules_of` what in them is legal DER and breaks a rule of its standard;
//! `page_with_warnings` says that behind a page, and `page_with_unchecked` which PACs nobody checks.
#![tactic(auto)]

mod broken;
mod error;
mod everything;
mod exchanges;
mod files;
mod frames;
mod kind;
mod names;
mod pages;
mod paired;
mod password_frames;
mod place;
mod placed;
mod rows;
mod tokens;
mod unchecked;
mod warnings;

pub use broken::broken_rules_of;
pub use error::PageError;
pub use everything::Everything;
pub use exchanges::Exchanges;
pub use files::{Ccaches, Keytabs};
pub use kind::{Kind, is_application, kind_of_octets};
pub use names::{kind_of_name, name_of_kind};
pub use pages::Pages;
pub use paired::json_with_places;
pub use password_frames::PasswordFrames;
pub use place::place_of_error;
pub use placed::page_with_places;
pub use tokens::Tokens;
pub use unchecked::page_with_unchecked;
pub use warnings::{page_with_warnings, warning_of};
