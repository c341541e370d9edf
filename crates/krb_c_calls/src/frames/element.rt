//! Elements at the start of octets (X.690, 8.1.1).

ghost use Rattle.std.specs.Prelude.{◌≡◌, ◌++◌, ℕ, List, length};
ghost use Rattle.krb_der_core.specs.Tlv.{tlv};

use krb_der_core::read_tlv;

/// How many octets the element has that is at the start.
pub(crate) fn element_size(octets: &[u8]) -> usize
    ensures { (tag : ℕ) (content rest : List ℕ) → octets.now ≡ tlv tag content ++ rest → result ≡ length (tlv tag content) }
{
    if octets.is_empty() {
        return 0;
    }
    match read_tlv(octets[0], octets) {
        Ok((_, taken)) => taken,
        Err(_) => 0,
    }
}
