//! Places and steps.

/// Some octets of an input, in octets from its front.
#[derive(Clone, Copy, PartialEq, Eq)]
pub struct Place {
    /// The number of the octets before them.
    pub offset: usize,
    /// Their number.
    pub size: usize,
}

/// One step into elements that stand one after another (X.690, 8.1.1).
#[derive(Clone, Copy, PartialEq, Eq)]
pub enum Step {
    /// To the content of the first element that has this tag, which is one octet (X.690, 8.1.2).
    Tag(u8),
    /// To the element, with its tag and length, before which so many others stand.
    Item(usize),
}
