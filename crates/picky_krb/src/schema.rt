//! Octets of DER as items: what each element is, what its standard calls it and where its content stands; by one table of the types of
//! Kerberos and one walk. Octets that are refused have the place of their first error. Whether octets are an encoding is told without memory, too.

pub use krb_encoding_check::{check_encoding, is_encoding};
pub use krb_schema::{
    Case, Fault, Field, Form, Item, LEVELS, Leaf, Name, Node, PathError, Role, Schema, Shape,
    broken_rules, content_of, find, items_determine_octets, items_of, kerberos, name_of_number,
    number_of_name, obeys, one_first_fault, one_list_of_items, row_named, type_named,
};
