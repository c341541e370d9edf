//! Contents of elements without elements.

ghost use Rattle.std.specs.Prelude.{◌≡◌, ℕ, IfErr, MatchBool, OnOk};
ghost use Rattle.krb_der_core.specs.declared.error.Asn1DerError.TheVariants as errors;
ghost use Rattle.krb_schema.specs.Faults.{IsLeafFault};
ghost use Rattle.krb_schema.specs.Leaves.{IsLeaf};
ghost use Rattle.krb_schema.specs.declared.item.Fault.TheVariants as faults;
ghost use Rattle.krb_schema.specs.declared.shape.Leaf.TheVariants as leaves;

use crate::numbers::{check_arcs, is_bit_string, is_integer, is_text, is_truth, is_unsigned};
use crate::times::is_time;
use krb_der_core::Asn1DerError;
use krb_schema::{Fault, Leaf};

/// Whether a content is that of a leaf, which is no OBJECT IDENTIFIER.
fn is_leaf(leaf: Leaf, content: &[u8]) -> bool
    requires { leaf ≡ leaves.Identifier → ⊥ }
    ensures { MatchBool result (IsLeaf leaf content.now) ((at : ℕ) → IsLeafFault leaf at content.now (faults.Refused errors.InvalidData at)) }
{
    match leaf {
        Leaf::Integer => is_integer(content),
        Leaf::Number(_) => is_integer(content),
        Leaf::Microseconds => is_integer(content),
        Leaf::Unsigned => is_unsigned(content),
        Leaf::Flags => is_bit_string(content),
        Leaf::Bits => is_bit_string(content),
        Leaf::Text => is_text(content),
        Leaf::Component => is_text(content),
        Leaf::Time => is_time(content),
        Leaf::Truth => is_truth(content),
        Leaf::Octets | Leaf::Secret | Leaf::Cipher | Leaf::Any | Leaf::Identifier => true,
    }
}

/// Refuses a content that is not that of a leaf, and begins after so many octets.
pub(crate) fn check_leaf(leaf: Leaf, at: usize, content: &[u8]) -> Result<(), Fault>
    ensures right { OnOk result (IsLeaf leaf content.now) }
    ensures refused { IfErr result (IsLeafFault leaf at content.now) }
{
    if let Leaf::Identifier = leaf {
        return match check_arcs(content) {
            Ok(()) => Ok(()),
            Err(why) => Err(Fault::Refused { why, offset: at }),
        };
    }
    if is_leaf(leaf, content) {
        return Ok(());
    }
    Err(Fault::Refused {
        why: Asn1DerError::InvalidData,
        offset: at,
    })
}
