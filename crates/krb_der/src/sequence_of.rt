//! SEQUENCE OF.

ghost use Rattle.std.specs.Prelude.{◌≡◌, ◌==◌, ◌++◌, List, IfOk, IfErr, OnOk, OnErr};
ghost use Rattle.std.specs.List.{flat_map, AllByRecursion};
ghost use Rattle.std.specs.Cmp.Lexicographic.{pointwise, lists_per, lists_equiv};
ghost use Rattle.krb_der_core.specs.Tlv.{tlv};
ghost use Rattle.krb_der_core.specs.TlvLaws.{tagged_element, tagged_one_value};
ghost use Rattle.krb_der_core.specs.Reading.{RejectsAll};
ghost use Rattle.krb_der_core.specs.Errors.{PrefixError, OrMemory, RowError, TaggedError};
ghost use Rattle.krb_der.specs.ListLaws.{list_one_content};
ghost use Rattle.krb_der_core.specs.ErrorLaws.{list_laws, tagged_laws};

use crate::sequence::SEQUENCE;
use krb_der_core::{Asn1DerError, Der, DerEncode, begin_tlv, end_tlv};
use std::alloc::{AllocError, Global};
use std::marker::Model;

/// SEQUENCE OF (X.690, 8.10): the content is the encodings of the elements, in order.
///
/// It is made from a vector and returns it, at `.0`, without a copy. A contract sees the list of its elements.
#[derive(Debug, Drop)]
pub struct Asn1SequenceOf<T>(pub Vec<T>);

impl<T> Model for Asn1SequenceOf<T> {
    ghost Value = { List T };

    ghost view = { λ s. s.0.items };
}

impl<T: PartialEq> PartialEq for Asn1SequenceOf<T> {
    ghost eq = { pointwise T.eq };

    ghost laws = { lists_per T.PartialEq.laws };

    fn eq(&self, other: &Self) -> bool {
        self.0.as_slice() == other.0.as_slice()
    }
}

impl<T: Eq> Eq for Asn1SequenceOf<T> {
    ghost laws = { lists_equiv T.Eq.laws };
}

/// The items whose concatenated encodings are these octets.
fn read_items<T: Der + Drop>(alloc: Global, octets: &[u8]) -> Result<Vec<T>, Asn1DerError>
    ensures valid { IfOk result (λ v. AllByRecursion T.is_value v.items) }
    ensures found { IfOk result (λ v. octets.now ≡ flat_map T.enc v.items) }
    ensures rejected { IfErr result (RejectsAll (AllByRecursion T.is_value) (flat_map T.enc) octets.now) }
    ensures first_error { IfErr result (OrMemory (RowError T.is_value T.enc (PrefixError T.first T.error) octets.now)) }
{
    let mut items = Vec::new(alloc);
    let mut rest = octets;
    while !rest.is_empty() {
        let (item, taken) = T::read(alloc, rest)?;
        items.push(item)?;
        rest = &rest[taken..];
    }
    Ok(items)
}

/// Appends the encodings of the items, in order.
fn write_items<T: DerEncode>(
    alloc: Global,
    items: &[T],
    out: &mut Vec<u8>,
) -> Result<(), AllocError>
    ensures ok { OnOk result (out.new.items ≡ out.old.items ++ flat_map T.enc items.now) }
    ensures valid { OnOk result (AllByRecursion T.is_value items.now) }
    ensures err { OnErr result (out.new.items ≡ out.old.items) }
{
    let start = out.len();
    for item in items {
        if let Err(error) = item.write(alloc, out) {
            out.truncate(start);
            return Err(error);
        }
    }
    Ok(())
}

impl<T: DerEncode> DerEncode for Asn1SequenceOf<T> {
    ghost enc = { λ v. tlv 48 (flat_map T.enc v) };

    ghost is_value = { AllByRecursion T.is_value };

    ghost first = { λ t. t == 48 };

    ghost is_element = { λ v h. tagged_element 48 (flat_map T.enc v) };

    ghost one_value = { tagged_one_value 48 (AllByRecursion T.is_value) (flat_map T.enc) (list_one_content T.enc T.is_value T.first T.is_element T.one_value) };

    ghost error = { TaggedError 48 (RowError T.is_value T.enc (PrefixError T.first T.error)) };

    ghost error_laws = { tagged_laws 48 (AllByRecursion T.is_value) (flat_map T.enc)
        (RowError T.is_value T.enc (PrefixError T.first T.error))
        (list_laws T.is_value T.enc T.first T.is_element T.error T.error_laws T.one_value) };

    fn starts(octet: u8) -> bool {
        octet == SEQUENCE
    }

    fn write(&self, alloc: Global, out: &mut Vec<u8>) -> Result<(), AllocError> {
        let start = begin_tlv(out)?;
        if let Err(error) = write_items(alloc, self.0.as_slice(), out) {
            out.truncate(start);
            return Err(error);
        }
        end_tlv(SEQUENCE, start, out)
    }
}

impl<T: Der + Drop> Der for Asn1SequenceOf<T> {
    fn read_element(alloc: Global, tag: u8, content: &[u8]) -> Result<Self, Asn1DerError> {
        if tag != SEQUENCE {
            return Err(Asn1DerError::InvalidData);
        }
        Ok(Asn1SequenceOf(read_items(alloc, content)?))
    }
}
