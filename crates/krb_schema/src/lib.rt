//! Octets as items, by a schema: one table of what the standards' ASN.1 says, and one walk.
//!
//! A `Schema` is data: rows, each the shape of a type. The walk reads octets by it from the left, strictly (X.690, 10), and answers
//! items: what each element is, what it is called, what its numbers are of, and where its content stands; or the first error and where
//! it is. Nothing is copied, and nothing is printed here.
#![tactic(auto)]

pub mod elements;
mod item;
pub mod kerberos;
mod laws;
mod leaf;
mod name_table;
mod named;
mod names;
mod path;
mod rules;
mod shape;
mod walk;

pub use item::{Fault, Form, Item, Node};
pub use laws::{items_determine_octets, one_first_fault, one_list_of_items};
pub use named::row_named;
pub use names::{name_of_number, number_of_name, type_named};
pub use path::{PathError, find};
pub use rules::{broken_rules, content_of, obeys};
pub use shape::{Case, Field, Leaf, Name, Role, Schema, Shape};
pub use walk::{LEVELS, items_of};
