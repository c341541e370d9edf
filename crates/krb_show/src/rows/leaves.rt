//! Elements without elements as tokens.

ghost use Rattle.std.specs.Prelude.{◌≡◌, OnErr, OnOk};
ghost use Rattle.krb_der_x509.specs.ObjectIdentifier.{dotted};
ghost use Rattle.krb_show.specs.Leaves.{identifier_of};
ghost use Rattle.krb_show.specs.Tokens.{Begins};
ghost use Rattle.krb_show.specs.RowLeaves.{any_of, leaf_as, leaf_of};

use crate::rows::Row;
use crate::{
    Label, Page, Show, show_cipher, show_identifier, show_number, show_octets, show_secret,
    show_text,
};
use krb_der::{Asn1DerError, BitStringAsn1, Der, GeneralizedTimeAsn1, IntegerAsn1};
use krb_der_core::write_tlv;
use krb_der_x509::ObjectIdentifierAsn1;
use krb_schema::Leaf;
use std::alloc::{AllocError, Global};

/// An object identifier, as dotted numbers (RFC 4512, 1.4), with the name of the mechanism that has it.
impl Show<Row> for ObjectIdentifierAsn1 {
    ghost shows = { λ label v. identifier_of label (dotted v) };

    fn show(&self, alloc: Global, label: &Label, page: &mut Page) -> Result<(), AllocError> {
        match self.to_text(alloc) {
            Ok(text) => show_identifier(alloc, label, text.as_str(), page),
            Err(_) => Err(AllocError),
        }
    }
}

/// Appends the value of this type whose content these octets are, and octets where they are the content of none.
fn show_as<T: Der + Show<Row> + Drop>(
    alloc: Global,
    tag: u8,
    label: &Label,
    content: &[u8],
    page: &mut Page,
) -> Result<(), AllocError>
    ensures ok { OnOk result (leaf_as T.is_value T.enc T.shows tag label.now content.now page.old.items page.new.items) }
    ensures kept { OnOk result (Begins page.old.items page.new.items) }
    ensures err { OnErr result (page.new.items ≡ page.old.items) }
{
    match T::read_element(alloc, tag, content) {
        Ok(value) => value.show(alloc, label, page),
        Err(Asn1DerError::OutOfMemory) => Err(AllocError),
        Err(_) => show_octets(alloc, label, content, page),
    }
}

/// Appends any element: of a registry the number of an ENUMERATED whose content is one octet below 128 (X.690, 8.4), else all octets of its encoding.
fn show_any(
    alloc: Global,
    tag: u8,
    label: &Label,
    content: &[u8],
    page: &mut Page,
) -> Result<(), AllocError>
    ensures ok { OnOk result (any_of tag label.now content.now page.old.items page.new.items) }
    ensures kept { OnOk result (Begins page.old.items page.new.items) }
    ensures err { OnErr result (page.new.items ≡ page.old.items) }
{
    if let [number] = content {
        if tag == 10 && label.kind.is_some() && *number < 128 {
            return show_number(alloc, label, i64::from(*number), page);
        }
    }
    let mut element = Vec::new(alloc);
    write_tlv(tag, content, &mut element)?;
    show_octets(alloc, label, &element, page)
}

/// Appends a leaf with this tag and content. What is not the content of one is shown as octets.
pub(crate) fn show_leaf(
    alloc: Global,
    leaf: Leaf,
    tag: u8,
    label: &Label,
    content: &[u8],
    page: &mut Page,
) -> Result<(), AllocError>
    ensures ok { OnOk result (leaf_of leaf tag label.now content.now page.old.items page.new.items) }
    ensures kept { OnOk result (Begins page.old.items page.new.items) }
    ensures err { OnErr result (page.new.items ≡ page.old.items) }
{
    match leaf {
        Leaf::Integer | Leaf::Number(_) | Leaf::Microseconds => {
            show_as::<IntegerAsn1>(alloc, 2, label, content, page)
        }
        Leaf::Unsigned => show_as::<u32>(alloc, 2, label, content, page),
        Leaf::Flags | Leaf::Bits => show_as::<BitStringAsn1>(alloc, 3, label, content, page),
        Leaf::Text | Leaf::Component => show_text(alloc, label, content, page),
        Leaf::Time => show_as::<GeneralizedTimeAsn1>(alloc, 24, label, content, page),
        Leaf::Octets => show_octets(alloc, label, content, page),
        Leaf::Secret => show_secret(alloc, label, content, page),
        Leaf::Cipher => show_cipher(alloc, label, content, page),
        Leaf::Truth => show_as::<bool>(alloc, 1, label, content, page),
        Leaf::Identifier => show_as::<ObjectIdentifierAsn1>(alloc, 6, label, content, page),
        Leaf::Any => show_any(alloc, tag, label, content, page),
    }
}
