//! Lemmas about the definitions: the sizes are the lengths of what the calls make and take.

ghost use Rattle.std.specs.Prelude.{◌≡◌, ℕ, ℤ, List, length};
ghost use Rattle.krb_crypto.specs.BySuite.{IsPasswordKey, key_octets_of, key_of_seed_of, confounder_octets_of, checksum_key_octets_of};
ghost use Rattle.krb_crypto.specs.declared.checksum_suite.ChecksumSuite.{ChecksumSuite};
ghost use Rattle.krb_crypto.specs.declared.cipher_suite.CipherSuite.{CipherSuite};
ghost use Rattle.krb_c_calls.specs.Calls.{IsEncryptionBy, IsEncryption};
ghost use Rattle.krb_c_calls.specs.Checksums.{IsChecksumBy, IsChecksum};
ghost use Rattle.krb_c_calls.specs.Keys.{IsKeyOfPassword, IsKeyOfSeed, seed_octets_of};
ghost use Rattle.krb_c_calls.specs.Numbers.{etype_number, checksum_number};
ghost use Rattle.krb_c_calls.specs.Sizes.{IsSizeOf, IsWord, IsEncryptedSize, sealed_octets_of, sum_octets_of};

/// A message that `encrypt` makes has the octets that `sealed_octets_of` says of its payload's (RFC 3961, 5.3 and 6.3; RFC 3962, 6; RFC
/// 8009, 5): `encrypted_size` answers their number where a word holds it, and else 0; `confounder_size` answers the confounder's.
pub fn encrypted()
    ensures by_suite { (suite : CipherSuite) (key : List ℕ) (usage : ℤ) (confounder payload octets : List ℕ)
        → IsEncryptionBy suite key usage confounder payload octets → length octets ≡ sealed_octets_of suite (length payload) }
    ensures size { (number : ℤ) (key : List ℕ) (usage : ℤ) (confounder payload octets : List ℕ) (size : ℕ)
        → IsEncryption number key usage confounder payload octets → IsEncryptedSize number (length payload) size → IsWord (length octets) size }
    ensures confounder_size { (number : ℤ) (key : List ℕ) (usage : ℤ) (confounder payload octets : List ℕ) (size : ℕ)
        → IsEncryption number key usage confounder payload octets → IsSizeOf etype_number confounder_octets_of number size
        → length confounder ≡ size }
    ensures key_size { (number : ℤ) (key : List ℕ) (usage : ℤ) (confounder payload octets : List ℕ) (size : ℕ)
        → IsEncryption number key usage confounder payload octets → IsSizeOf etype_number key_octets_of number size → length key ≡ size }
{}

/// A checksum that `checksum` makes has the octets that `sum_octets_of` says (RFC 3961, 6.3; RFC 3962, 6; RFC 8009, 5): `checksum_size`
/// answers their number, and `checksum_key_size` the key's.
pub fn checksum()
    ensures by_suite { (suite : ChecksumSuite) (key : List ℕ) (usage : ℤ) (message octets : List ℕ)
        → IsChecksumBy suite key usage message octets → length octets ≡ sum_octets_of suite }
    ensures size { (number : ℤ) (key : List ℕ) (usage : ℤ) (message octets : List ℕ) (size : ℕ)
        → IsChecksum number key usage message octets → IsSizeOf checksum_number sum_octets_of number size → length octets ≡ size }
    ensures key_size { (number : ℤ) (key : List ℕ) (usage : ℤ) (message octets : List ℕ) (size : ℕ)
        → IsChecksum number key usage message octets → IsSizeOf checksum_number checksum_key_octets_of number size → length key ≡ size }
{}

/// Each key that a password and a salt give, and that a seed of the suite's length gives, has the suite's octets (RFC 3961, 6.3.1; RFC 3962,
/// 4; RFC 8009, 4): `key_size` answers the number of octets of a key that `string_to_key` or `random_to_key` makes, and `seed_size` the seed's.
pub fn keys()
    ensures of_password { (suite : CipherSuite) (password salt key : List ℕ)
        → IsPasswordKey suite password salt key → length key ≡ key_octets_of suite }
    ensures of_seed { (suite : CipherSuite) (seed : List ℕ)
        → length seed ≡ seed_octets_of suite → length (key_of_seed_of suite seed) ≡ key_octets_of suite }
    ensures password_key_size { (number : ℤ) (password salt key : List ℕ) (size : ℕ)
        → IsKeyOfPassword number password salt key → IsSizeOf etype_number key_octets_of number size → length key ≡ size }
    ensures seed_key_size { (number : ℤ) (seed key : List ℕ) (size : ℕ)
        → IsKeyOfSeed number seed key → IsSizeOf etype_number key_octets_of number size → length key ≡ size }
    ensures seed_size { (number : ℤ) (seed key : List ℕ) (size : ℕ)
        → IsKeyOfSeed number seed key → IsSizeOf etype_number seed_octets_of number size → length seed ≡ size }
{}
