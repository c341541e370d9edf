//! Comparison of octets that a secret decides, as of checksums.

ghost use Rattle.std.specs.Prelude.{◌≡◌, ◌↔◌, IsTrue};

/// Whether two lists of octets are equal. It goes through all octets of lists of one length, wherever they differ; lists of other
/// lengths, which are no secret, differ at once.
pub fn are_equal(first: &[u8], second: &[u8]) -> bool
    ensures { IsTrue result ↔ (first.now ≡ second.now) }
{
    if first.len() != second.len() {
        return false;
    }
    let mut difference = 0;
    for i in 0..first.len() {
        difference |= first[i] ^ second[i];
    }
    difference == 0
}
