//! Contents without elements.

ghost use Rattle.std.specs.Prelude.{◌≡◌, ◌<◌, ◌^◌, length, IfErr, OnOk};
ghost use Rattle.krb_schema.specs.Leaves.{IsLeaf, IsOf};
ghost use Rattle.krb_schema.specs.Faults.{IsLeafFault, OrMemory, refused_at};

use crate::item::Fault;
use crate::shape::Leaf;
use krb_der_core::{
    Asn1DerError, BitStringAsn1, Der, GeneralStringAsn1, GeneralizedTimeAsn1, IntegerAsn1,
};
use krb_der_x509::ObjectIdentifierAsn1;
use std::alloc::Global;

/// Refuses a content whose element of this tag is not of the type.
fn is_of<T: Der + Drop>(alloc: Global, tag: u8, at: usize, content: &[u8]) -> Result<(), Fault>
    ensures right { OnOk result (IsOf T.is_value T.enc tag content.now) }
    ensures refused { IfErr result (OrMemory (refused_at at (T.error tag content.now))) }
{
    match T::read_element(alloc, tag, content) {
        Ok(_value) => Ok(()),
        Err(Asn1DerError::OutOfMemory) => Err(Fault::OutOfMemory),
        Err(why) => Err(Fault::Refused { why, offset: at }),
    }
}

/// Refuses a content that is not that of a leaf, and begins after so many octets.
pub(crate) fn check_leaf(alloc: Global, leaf: Leaf, at: usize, content: &[u8]) -> Result<(), Fault>
    ensures right { OnOk result (IsLeaf leaf content.now) }
    ensures refused { IfErr result (OrMemory (IsLeafFault leaf at content.now)) }
{
    match leaf {
        Leaf::Integer | Leaf::Number(_) | Leaf::Microseconds => is_of::<IntegerAsn1>(
            alloc, 2, at, content,
        ),
        Leaf::Unsigned => is_of::<u32>(alloc, 2, at, content),
        Leaf::Flags | Leaf::Bits => is_of::<BitStringAsn1>(alloc, 3, at, content),
        Leaf::Text | Leaf::Component => is_of::<GeneralStringAsn1>(alloc, 27, at, content),
        Leaf::Time => is_of::<GeneralizedTimeAsn1>(alloc, 24, at, content),
        Leaf::Octets | Leaf::Secret | Leaf::Cipher | Leaf::Any => Ok(()),
        Leaf::Truth => is_of::<bool>(alloc, 1, at, content),
        Leaf::Identifier => is_of::<ObjectIdentifierAsn1>(alloc, 6, at, content),
    }
}
