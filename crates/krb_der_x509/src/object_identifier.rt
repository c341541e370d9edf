//! OBJECT IDENTIFIER.

ghost use Rattle.std.specs.Prelude.{◌≡◌, ◌==◌, ◌⊎◌, ◌+◌, ◌*◌, ◌^◌, ◌<◌, ◌++◌, ◌∷◌, List, ℕ, length, take, slice_index, IfOk, IfErr, OnOk, OnErr, MatchBool, MatchResult};
ghost use Rattle.std.specs.Cmp.Lexicographic.{pointwise};
ghost use Rattle.std.specs.Cmp.Rules.{comparing};
ghost use Rattle.std.specs.List.{flat_map, AllByRecursion};
ghost use Rattle.std.specs.Int.Digits.{digits_of};
ghost use Rattle.std.proofs.Common.{rules};
ghost use Rattle.krb_der_core.specs.Tlv.{tlv};
ghost use Rattle.krb_der_core.specs.TlvLaws.{tagged_element, tagged_one_value};
ghost use Rattle.krb_der_core.specs.Reading.{TakesPrefix, RejectsAll};
ghost use Rattle.krb_der_core.specs.Errors.{OrMemory, RowError, TaggedError};
ghost use Rattle.krb_der_core.specs.ErrorLaws.{tagged_laws};
ghost use Rattle.krb_der_x509.specs.ObjectIdentifier.{continued, sub_identifier, sub_identifiers, arcs_content, dots_before, dotted, IsArcs};
ghost use Rattle.krb_der_x509.specs.ObjectIdentifierLaws.{arcs_one_content};
ghost use Rattle.krb_der_x509.specs.ObjectIdentifierErrors.{ArcsError, SubIdentifierError, arcs_laws};
ghost use Rattle.krb_der_core.specs.declared.error.Asn1DerError.TheVariants as errors;

use krb_der_core::{Asn1DerError, Der, DerEncode, begin_tlv, end_tlv};
use std::alloc::{AllocError, Global};
use std::marker::Model;

/// The tag of an OBJECT IDENTIFIER: universal 6 (X.690, 8.19).
const OBJECT_IDENTIFIER: u8 = 0x06;

/// A number from here on does not fit 64 bits with one more digit in base 128.
const MOST_BEFORE_A_DIGIT: u64 = 1 << 57;

/// OBJECT IDENTIFIER (X.690, 8.19), each of whose sub-identifiers is below 2^64.
///
/// A contract sees the list of its arcs.
#[derive(Debug, Drop)]
pub struct ObjectIdentifierAsn1(Vec<u64>);

impl Model for ObjectIdentifierAsn1 {
    ghost Value = { List ℕ };

    ghost view = { λ s. s.0.items };

    ghost invariant = { λ s. IsArcs s.0.items };
}

/// Lemma: what a slice holds are numbers below 2^64.
fn known_arcs(arcs: &[u64])
    ensures { (i : ℕ) → slice_index arcs.now i < 2 ^ 64 }
{}

/// Whether these are the arcs of an object identifier.
fn are_arcs(arcs: &[u64]) -> bool
    ensures { MatchBool result (IsArcs arcs.now) (IsArcs arcs.now → ⊥) }
{
    known_arcs(arcs);
    arcs.len() >= 2
        && arcs[0] <= 2
        && (arcs[0] == 2 || arcs[1] <= 39)
        && arcs[1] <= u64::MAX - 40 * arcs[0]
}

/// The sub-identifier at the start of octets (X.690, 8.19.2), and the number of its octets.
///
/// `InvalidData` where there is none, or it begins with `80` or is cut short; `UnsupportedValue` where it does not fit
/// 64 bits and one more octet is there. Nothing is allocated.
pub fn read_sub_identifier(octets: &[u8]) -> Result<(u64, usize), Asn1DerError>
    ensures found { IfOk result (λ p. TakesPrefix (sub_identifier p.0) p.1 octets.now) }
    ensures fits { IfOk result (λ p. p.0 < 2 ^ 64) }
    ensures rejected { IfErr result (λ e. (n : ℕ) (rest : List ℕ) → n < 2 ^ 64 → octets.now ≡ sub_identifier n ++ rest → ⊥) }
    ensures error { IfErr result (λ e. (e ≡ errors.InvalidData) ⊎ (e ≡ errors.UnsupportedValue)) }
    ensures first_error { IfErr result (SubIdentifierError octets.now) }
{
    if octets.is_empty() || octets[0] == 0x80 {
        return Err(Asn1DerError::InvalidData);
    }
    let mut n = 0u64;
    let mut taken = 0;
    while taken < octets.len() {
        if n >= MOST_BEFORE_A_DIGIT {
            return Err(Asn1DerError::UnsupportedValue);
        }
        let octet = octets[taken];
        n = n * 128 + (octet % 128) as u64;
        taken += 1;
        if octet < 128 {
            return Ok((n, taken));
        }
    }
    Err(Asn1DerError::InvalidData)
}

/// The sub-identifiers whose encodings are these octets.
fn read_sub_identifiers(alloc: Global, octets: &[u8]) -> Result<Vec<u64>, Asn1DerError>
    ensures found { IfOk result (λ v. octets.now ≡ flat_map sub_identifier v.items) }
    ensures rejected { IfErr result (λ e. (e ≡ errors.OutOfMemory)
        ⊎ ((v : List ℕ) → ((i : ℕ) → slice_index v i < 2 ^ 64) → octets.now ≡ flat_map sub_identifier v → ⊥)) }
    ensures error { IfErr result (λ e. (e ≡ errors.OutOfMemory) ⊎ ((e ≡ errors.InvalidData) ⊎ (e ≡ errors.UnsupportedValue))) }
    ensures below { IfOk result (λ v. AllByRecursion (λ n. n < 2 ^ 64) v.items) }
    ensures first_error { IfErr result (OrMemory (RowError (λ n. n < 2 ^ 64) sub_identifier SubIdentifierError octets.now)) }
{
    let mut numbers = Vec::new(alloc);
    let mut rest = octets;
    while !rest.is_empty() {
        let (n, taken) = read_sub_identifier(rest)?;
        numbers.push(n)?;
        rest = &rest[taken..];
    }
    Ok(numbers)
}

/// The arcs that have this content.
fn read_arcs(alloc: Global, content: &[u8]) -> Result<Vec<u64>, Asn1DerError>
    ensures valid { IfOk result (λ v. IsArcs v.items) }
    ensures found { IfOk result (λ v. content.now ≡ arcs_content v.items) }
    ensures rejected { IfErr result (RejectsAll IsArcs arcs_content content.now) }
    ensures first_error { IfErr result (OrMemory (ArcsError content.now)) }
{
    let mut arcs = read_sub_identifiers(alloc, content)?;
    if arcs.is_empty() {
        return Err(Asn1DerError::InvalidData);
    }
    let first = arcs[0];
    let root = if first < 80 { first / 40 } else { 2 };
    arcs[0] = first - 40 * root;
    arcs.insert(0, root)?;
    known_arcs(&arcs);
    Ok(arcs)
}

/// Appends the digits of a number in base 128, each with its high bit set. Where an allocation fails, some may have been
/// appended.
fn push_continued(n: u64, out: &mut Vec<u8>) -> Result<(), AllocError>
    ensures ok { OnOk result (out.new.items ≡ out.old.items ++ continued (digits_of 128 n)) }
    ensures err { OnErr result (take (length out.old.items) out.new.items ≡ out.old.items) }
{
    if n == 0 {
        return Ok(());
    }
    push_continued(n / 128, out)?;
    out.push(128 + (n % 128) as u8)?;
    Ok(())
}

/// Appends a sub-identifier. Where an allocation fails, some of its octets may have been appended.
fn push_sub_identifier(n: u64, out: &mut Vec<u8>) -> Result<(), AllocError>
    ensures ok { OnOk result (out.new.items ≡ out.old.items ++ sub_identifier n) }
    ensures err { OnErr result (take (length out.old.items) out.new.items ≡ out.old.items) }
{
    push_continued(n / 128, out)?;
    out.push((n % 128) as u8)?;
    Ok(())
}

/// Appends sub-identifiers. Where an allocation fails, some of their octets may have been appended.
fn push_sub_identifiers(numbers: &[u64], out: &mut Vec<u8>) -> Result<(), AllocError>
    ensures ok { OnOk result (out.new.items ≡ out.old.items ++ flat_map sub_identifier numbers.now) }
    ensures err { OnErr result (take (length out.old.items) out.new.items ≡ out.old.items) }
{
    for n in numbers {
        push_sub_identifier(*n, out)?;
    }
    Ok(())
}

/// Appends the content of an object identifier. Where an allocation fails, some of its octets may have been appended.
fn push_arcs(arcs: &[u64], out: &mut Vec<u8>) -> Result<(), AllocError>
    requires { IsArcs arcs.now }
    ensures ok { OnOk result (out.new.items ≡ out.old.items ++ arcs_content arcs.now) }
    ensures err { OnErr result (take (length out.old.items) out.new.items ≡ out.old.items) }
{
    push_sub_identifier(40 * arcs[0] + arcs[1], out)?;
    push_sub_identifiers(&arcs[2..], out)
}

/// Appends numbers in decimal to a text, a dot before each.
fn push_dotted(arcs: &[u64], text: &mut String) -> Result<(), AllocError>
    ensures { OnOk result (text.new.bytes.items ≡ text.old.bytes.items ++ dots_before arcs.now) }
{
    for arc in arcs {
        write!(text, ".{arc}")?;
    }
    Ok(())
}

impl ObjectIdentifierAsn1 {
    /// The object identifier with these arcs.
    ///
    /// `InvalidData` where there are fewer than two, where the first is more than 2, where the first is 0 or 1 and the second
    /// more than 39, or where the first is 2 and 80 plus the second does not fit 64 bits.
    pub fn from_arcs(alloc: Global, arcs: &[u64]) -> Result<Self, Asn1DerError>
        ensures { MatchResult result (λ v. v ≡ arcs.now) (λ e. (e ≡ errors.OutOfMemory) ⊎ ((e ≡ errors.InvalidData) × (IsArcs arcs.now → ⊥))) }
    {
        if !are_arcs(arcs) {
            return Err(Asn1DerError::InvalidData);
        }
        Ok(ObjectIdentifierAsn1(Vec::from_slice(alloc, arcs)?))
    }

    /// The arcs in decimal, separated by dots, as `1.2.840.113554.1.2.2` (RFC 4512, 1.4). The only error is `OutOfMemory`.
    pub fn to_text(&self, alloc: Global) -> Result<String, Asn1DerError>
        ensures { MatchResult result (λ text. text.bytes.items ≡ dotted self.now) (λ e. e ≡ errors.OutOfMemory) }
    {
        let first = self.0[0];
        let mut text = format!(in alloc; "{first}")?;
        push_dotted(&self.0.as_slice()[1..], &mut text)?;
        Ok(text)
    }

    /// The arcs.
    pub fn arcs(&self) -> &[u64]
        ensures { result.now ≡ self.now }
    {
        self.0.as_slice()
    }
}

impl PartialEq for ObjectIdentifierAsn1 {
    ghost eq = { pointwise ◌==◌ };

    ghost laws = { Prim.search (comparing, rules) };

    fn eq(&self, other: &Self) -> bool {
        self.0.as_slice() == other.0.as_slice()
    }
}

impl Eq for ObjectIdentifierAsn1 {
    ghost laws = { Prim.search (comparing, rules) };
}

impl DerEncode for ObjectIdentifierAsn1 {
    ghost enc = { λ v. tlv 6 (arcs_content v) };

    ghost is_value = { IsArcs };

    ghost first = { λ t. t == 6 };

    ghost is_element = { λ v h. tagged_element 6 (arcs_content v) };

    ghost one_value = { tagged_one_value 6 IsArcs arcs_content arcs_one_content };

    ghost error = { TaggedError 6 ArcsError };

    ghost error_laws = { tagged_laws 6 IsArcs arcs_content ArcsError arcs_laws };

    fn starts(octet: u8) -> bool {
        octet == OBJECT_IDENTIFIER
    }

    fn write(&self, _alloc: Global, out: &mut Vec<u8>) -> Result<(), AllocError> {
        let start = begin_tlv(out)?;
        if let Err(error) = push_arcs(self.0.as_slice(), out) {
            out.truncate(start);
            return Err(error);
        }
        end_tlv(OBJECT_IDENTIFIER, start, out)
    }
}

impl Der for ObjectIdentifierAsn1 {
    fn read_element(alloc: Global, tag: u8, content: &[u8]) -> Result<Self, Asn1DerError> {
        if tag != OBJECT_IDENTIFIER {
            return Err(Asn1DerError::InvalidData);
        }
        let arcs = read_arcs(alloc, content)?;
        Ok(ObjectIdentifierAsn1(arcs))
    }
}
