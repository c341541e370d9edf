//! Items: what a walk answers.

ghost use Rattle.std.specs.Prelude.{◌≡◌, MatchBool};
ghost use Rattle.krb_schema.specs.declared.item.Fault.TheVariants as faults;

use crate::shape::{Leaf, Name};
use krb_der_core::Asn1DerError;
use std::alloc::AllocError;
use thiserror::Error;

/// An element that has elements.
#[derive(Clone, Copy, PartialEq, Eq)]
pub enum Node {
    /// A SEQUENCE (X.690, 8.9).
    Struct,
    /// A SEQUENCE OF (X.690, 8.10).
    List,
    /// A SEQUENCE OF that its standard wants to have one element or more (X.680, 51.5, SIZE (1..MAX)).
    FilledList,
    /// What holds one element alone: an explicit tag (X.690, 8.14), or an OCTET STRING.
    Wrap,
}

/// What an item is.
#[derive(Clone, Copy, PartialEq, Eq)]
pub enum Form {
    /// An element without elements.
    Leaf(Leaf),
    /// An element whose elements follow, up to its `End`.
    Begin(Node),
    /// The end of such an element.
    End(Node),
}

/// An element, or where one begins or ends. It holds no octets: these stand in the input at its place.
#[derive(Clone, Copy, PartialEq, Eq)]
pub struct Item {
    /// What it is.
    pub form: Form,
    /// What the standard calls it.
    pub name: Name,
    /// How many elements it stands in.
    pub depth: u8,
    /// The octet of its tag (X.690, 8.1.2).
    pub tag: u8,
    /// How many octets of the input stand before its content.
    pub offset: usize,
    /// How many octets its content has.
    pub size: usize,
}

/// Why octets have no items.
#[derive(Debug, Drop, Error)]
pub enum Fault {
    /// An allocation failed.
    #[error("out of memory")]
    OutOfMemory,
    /// The schema lacks a row, or its fields or cases.
    #[error("the schema lacks a row")]
    NoRow,
    /// More than 64 elements, fields' tags not counted, stand in one another: the last begins after so many octets.
    #[error("more than 64 elements stand in one another at octet {offset}")]
    TooDeep { offset: usize },
    /// They are not of the type: the first error from the left, and how many octets stand before it. An error of a tag or of a length is
    /// where its element begins, one of a content without elements where that content begins, and octets that are left over where they begin.
    #[error("{why} at octet {offset}")]
    Refused { why: Asn1DerError, offset: usize },
}

impl Fault {
    /// Whether an allocation failed.
    pub fn is_out_of_memory(&self) -> bool
        ensures { MatchBool result (self.now ≡ faults.OutOfMemory) (self.now ≡ faults.OutOfMemory → ⊥) }
    {
        match self {
            Fault::OutOfMemory => true,
            Fault::NoRow | Fault::TooDeep { .. } | Fault::Refused { .. } => false,
        }
    }
}

impl From<AllocError> for Fault {
    ghost from_gives = { λ x e. e ≡ faults.OutOfMemory };

    fn from(_error: AllocError) -> Self {
        Fault::OutOfMemory
    }
}
