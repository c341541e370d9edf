//! The key of triple DES that random octets give (RFC 3961, 6.3.1): three keys of DES, of seven octets each.

ghost use Rattle.std.specs.Prelude.{◌≡◌, ◌≤◌, length};
ghost use Rattle.krb_crypto_message.specs.RandomToKey.{random_to_key, key_part, stretched, with_parity, upper_bits, repaired, is_weak, is_weak_pair};

use super::parts::concatenated;

/// What is added by exclusive or to the last octet of a weak key (RFC 3961, 6.2 and 6.3.1).
const REPAIR: u8 = 0xf0;

/// The key that the first 21 octets of a seed give, seven octets for each of its three keys of DES. It allocates nothing.
pub(crate) fn key_of_seed(seed: &[u8]) -> [u8; 24]
    requires { 21 ≤ length seed.now }
    ensures { result ≡ random_to_key seed.now }
{
    let first = key_part(&seed[..7]);
    let second = key_part(&seed[7..14]);
    let third = key_part(&seed[14..21]);
    concatenated(&first, &second, &third)
}

/// The key of DES that seven octets give.
fn key_part(octets: &[u8]) -> [u8; 8]
    requires { length octets.now ≡ 7 }
    ensures { result ≡ key_part octets.now }
{
    repaired(stretched(octets))
}

/// Seven octets stretched to eight (the table of RFC 3961, 6.3.1): each keeps its upper seven bits, and the eighth octet
/// has their lowest bits, the first octet's at the right. The lowest bit of each of the eight is for parity.
fn stretched(octets: &[u8]) -> [u8; 8]
    requires { length octets.now ≡ 7 }
    ensures { result ≡ stretched octets.now }
{
    let low_bits = (octets[0] & 1) << 1
        | (octets[1] & 1) << 2
        | (octets[2] & 1) << 3
        | (octets[3] & 1) << 4
        | (octets[4] & 1) << 5
        | (octets[5] & 1) << 6
        | (octets[6] & 1) << 7;
    [
        with_odd_parity(octets[0]),
        with_odd_parity(octets[1]),
        with_odd_parity(octets[2]),
        with_odd_parity(octets[3]),
        with_odd_parity(octets[4]),
        with_odd_parity(octets[5]),
        with_odd_parity(octets[6]),
        with_odd_parity(low_bits),
    ]
}

/// The octet, with the lowest bit that makes its number of ones odd.
fn with_odd_parity(octet: u8) -> u8
    ensures { result ≡ with_parity (upper_bits octet) }
{
    let upper = octet & 0xfe;
    let parity = (upper.count_ones() + 1) % 2;
    upper | parity as u8
}

/// The key, changed in its last octet if it is weak.
fn repaired(mut key: [u8; 8]) -> [u8; 8]
    ensures { result ≡ repaired key }
{
    if is_weak(&key) {
        key[7] ^= REPAIR;
    }
    key
}

/// Whether the key is one of the 16 weak and semi-weak keys of DES (FIPS 74; NIST SP 800-67).
fn is_weak(key: &[u8; 8]) -> bool
    ensures { result ≡ is_weak key.now }
{
    let [a, b, _, _, c, d, _, _] = *key;
    *key == [a, b, a, b, c, d, c, d] && is_weak_pair(a, c) && is_weak_pair(b, d)
}

/// Whether these are an octet of the first half of a weak key and the one of its second half that goes with it.
fn is_weak_pair(first: u8, second: u8) -> bool
    ensures { result ≡ is_weak_pair first second }
{
    matches!(
        (first, second),
        (0x01, 0x01) | (0x1f, 0x0e) | (0xe0, 0xf1) | (0xfe, 0xfe)
    )
}
