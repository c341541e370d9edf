//! Exclusive or of octets, for the modes of operation, HMAC and PBKDF2.

ghost use Rattle.std.specs.Prelude.{◌≡◌, ◌≤◌, length};
ghost use Rattle.krb_crypto_hash.specs.Xor.{xor_lists, padded_to};

/// The block, combined by exclusive or with at most as many octets, padded with zeros to a block.
pub fn xored_with<const SIZE: usize>(block: &[u8; SIZE], part: &[u8]) -> [u8; SIZE]
    requires { length part.now ≤ SIZE }
    ensures { result ≡ xor_lists (padded_to SIZE part.now) block.now }
{
    let mut combined = *block;
    for (i, x) in part.iter().enumerate() {
        combined[i] ^= *x;
    }
    combined
}
