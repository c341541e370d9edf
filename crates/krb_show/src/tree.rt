//! Octets as a tree of elements.

ghost use Rattle.std.specs.Prelude.{◌≡◌, ◌+◌, ◌<◌, ◌≤◌, ◌^◌, ℕ, List, [], ◌∷◌, ◌++◌, true, drop, length, IfOk, IfErr, OnOk};
ghost use Rattle.std.specs.String.{string_bytes};
ghost use Rattle.krb_der_core.specs.Tlv.{header, tlv};
ghost use Rattle.krb_show.specs.Tokens.{Token, plain};
ghost use Rattle.krb_show.specs.Names.{tag_name};
ghost use Rattle.krb_show.specs.Tree.{IsElementShown, IsNoElement, IsTree, IsTreePage, error_name, heading_of, is_opened, is_short, label_of, leaf_of, rest_of};

use crate::names::{is_text, tag_name};
use crate::{Form, Label, Page, push_token, show_octets, show_text};
use krb_der_core::{Asn1DerError, read_tlv};
use std::alloc::{AllocError, Global};

/// How many levels of elements are opened: more than any message of Kerberos has.
pub const LEVELS: u8 = 64;

/// Whether an element's content is shown as elements, where so many levels may still be opened.
fn is_opened(levels: u8, tag: u8) -> bool
    ensures { result ≡ is_opened levels tag }
{
    0 < levels && tag / 32 % 2 == 1
}

/// The element at the start of octets.
#[derive(Drop)]
struct Element<'a> {
    tag: u8,
    /// How many octets its tag and its length have.
    header: usize,
    content: &'a [u8],
    /// The octets behind it.
    rest: &'a [u8],
}

/// The octets from a place on.
#[tactic(auto, using(crate::proofs::Trees::all_behind))]
fn from_place(octets: &[u8], place: usize) -> &[u8]
    requires { place ≤ length octets.now }
    ensures { result.now ≡ drop place octets.now }
{
    &octets[place..]
}

/// The element at the start. A tag of more than one octet is `InvalidData`.
fn first_element(octets: &[u8]) -> Result<Element<'_>, Asn1DerError>
    requires { 0 < length octets.now }
    ensures found { IfOk result (λ e. octets.now ≡ tlv e.tag e.content.now ++ e.rest.now) }
    ensures size { IfOk result (λ e. e.header ≡ length (header e.tag (length e.content.now))) }
    ensures short { IfOk result (λ e. is_short e.tag ≡ true) }
    ensures parts { IfOk result (λ e. e.header + length e.content.now + length e.rest.now ≡ length octets.now) }
    ensures begins { IfOk result (λ e. 0 < e.header) }
    ensures rejected { IfErr result (IsNoElement octets.now) }
{
    let tag = octets[0];
    if tag % 32 == 31 {
        return Err(Asn1DerError::InvalidData);
    }
    match read_tlv(tag, octets) {
        Err(why) => Err(why),
        Ok((content, taken)) => {
            has_header(tag, content, taken);
            Ok(Element {
                tag,
                header: taken - content.len(),
                content,
                rest: from_place(octets, taken),
            })
        }
    }
}

/// A lemma: how many octets an element has before its content.
#[tactic(auto, using(crate::proofs::Trees::header_size))]
fn has_header(tag: u8, content: &[u8], taken: usize)
    ensures size { taken ≡ length (tlv tag content.now) → taken ≡ length (header tag (length content.now)) + length content.now }
    ensures begins { 0 < length (header tag (length content.now)) }
{}

/// What octets are called that begin at a place.
#[tactic(auto, unfolding(crate::specs::Tree::label_of))]
fn label(alloc: Global, name: &str, at: usize, count: usize) -> Result<String, AllocError>
    ensures { IfOk result (λ text. plain (string_bytes text) ≡ label_of name.now at count) }
{
    let place = format!(in alloc; "{at}")?;
    let digits = format!(in alloc; "{count}")?;
    let mut text = String::new(alloc);
    text.push_str(name)?;
    text.push_str("@")?;
    text.push_str(place.as_str())?;
    text.push_str("+")?;
    text.push_str(digits.as_str())?;
    Ok(text)
}

/// What an element is called that begins at a place.
fn element_label(alloc: Global, tag: u8, at: usize, count: usize) -> Result<String, AllocError>
    ensures { IfOk result (λ text. plain (string_bytes text) ≡ label_of (tag_name tag) at count) }
{
    let name = tag_name(alloc, tag)?;
    label(alloc, name.as_str(), at, count)
}

/// Appends the token of an element whose content is shown beside it.
fn push_leaf(
    alloc: Global,
    tag: u8,
    at: usize,
    content: &[u8],
    page: &mut Page,
) -> Result<(), AllocError>
    ensures { OnOk result (page.new.items ≡ page.old.items ++ leaf_of at tag content.now ∷ []) }
{
    let text = element_label(alloc, tag, at, content.len())?;
    let label = Label::new(text.as_str());
    if is_text(tag) {
        show_text(alloc, &label, content, page)
    } else {
        show_octets(alloc, &label, content, page)
    }
}

/// The name of an error.
fn error_name(why: &Asn1DerError) -> &'static str
    ensures { result.now ≡ error_name why.now }
{
    match why {
        Asn1DerError::InvalidData => "InvalidData",
        Asn1DerError::TruncatedData => "TruncatedData",
        Asn1DerError::UnsupportedValue => "UnsupportedValue",
        _ => "error",
    }
}

/// Appends the token of octets that are no element.
fn push_rest(
    alloc: Global,
    why: &Asn1DerError,
    at: usize,
    octets: &[u8],
    page: &mut Page,
) -> Result<(), AllocError>
    ensures { OnOk result (page.new.items ≡ page.old.items ++ rest_of at why.now octets.now ∷ []) }
{
    let text = label(alloc, error_name(why), at, octets.len())?;
    show_octets(alloc, &Label::new(text.as_str()), octets, page)
}

/// Appends the token of where an element begins or ends whose content is shown within it.
fn push_heading(
    alloc: Global,
    form: Form,
    tag: u8,
    at: usize,
    count: usize,
    page: &mut Page,
) -> Result<(), AllocError>
    ensures { (content : List ℕ) → length content ≡ count → OnOk result (page.new.items ≡ page.old.items ++ heading_of form at tag content ∷ []) }
{
    let text = element_label(alloc, tag, at, count)?;
    let label = Label::new(text.as_str());
    push_token(alloc, form, &label, Vec::new(alloc), Vec::new(alloc), page)
}

/// Appends the tokens of an element whose content begins so many octets behind its place.
#[cycle(tree)]
fn push_element(
    alloc: Global,
    levels: u8,
    tag: u8,
    at: usize,
    header: usize,
    content: &[u8],
    page: &mut Page,
) -> Result<(), AllocError>
    requires { at + header + length content.now < 2 ^ 64 }
    ensures { OnOk result ((tokens : List Token) × IsElementShown levels at header tag content.now tokens × (page.new.items ≡ page.old.items ++ tokens)) }
{
    if !is_opened(levels, tag) {
        return push_leaf(alloc, tag, at, content, page);
    }
    let count = content.len();
    push_heading(alloc, Form::Struct, tag, at, count, page)?;
    push_elements(alloc, levels - 1, at + header, content, page)?;
    push_heading(alloc, Form::StructEnd, tag, at, count, page)
}

/// Appends the tokens of octets that begin at a place, element after element.
#[cycle(tree)]
fn push_elements(
    alloc: Global,
    levels: u8,
    start: usize,
    octets: &[u8],
    page: &mut Page,
) -> Result<(), AllocError>
    requires { start + length octets.now < 2 ^ 64 }
    ensures { OnOk result ((tokens : List Token) × IsTree levels start octets.now tokens × (page.new.items ≡ page.old.items ++ tokens)) }
{
    let mut rest = octets;
    let mut at = start;
    'elements: while !rest.is_empty() {
        match first_element(rest) {
            Err(why) => return push_rest(alloc, &why, at, rest, page),
            Ok(found) => {
                let header = found.header;
                let content = found.content;
                push_element(alloc, levels, found.tag, at, header, content, page)?;
                at += header + content.len();
                rest = found.rest;
            }
        }
    }
    Ok(())
}

/// The page of octets as a tree of elements, by tags and lengths alone (X.690, 8.1). Each element is called `TAG@PLACE+COUNT`: its tag,
/// where it begins, and how many octets its content has. Where the tag says that these are elements, they are shown within it, 64
/// levels deep and no deeper; other contents are shown as octets, or as a text where the tag is that of one. What is no element is shown as
/// octets, up to the end of the element around it, under the name of its first error in place of a tag.
///
/// The only error is an allocation failure.
pub fn page_of_tree(alloc: Global, octets: &[u8]) -> Result<Page, AllocError>
    ensures { IfOk result (λ page. IsTreePage octets.now page.items) }
{
    let mut page = Vec::new(alloc);
    push_elements(alloc, LEVELS, 0, octets, &mut page)?;
    Ok(page)
}
