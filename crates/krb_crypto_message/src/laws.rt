//! Lemmas about the definitions: what each key that random octets give is, and that what was sealed is opened to its payload.
//! With the contracts of the message calls they say what these calls return.

ghost use Rattle.std.specs.Prelude.{◌≡◌, ◌*◌, ◌<◌, ℕ, ℤ, List, length, take, drop};
ghost use Rattle.std.specs.List.{All, Contains};
ghost use Rattle.krb_crypto_block.specs.Modes.{IsPadding};
ghost use Rattle.krb_crypto_block.specs.declared.aes.AesSize.{AesSize};
ghost use Rattle.krb_crypto_message.specs.AesSha2.{IsSealedSha2};
ghost use Rattle.krb_crypto_message.specs.RandomToKey.{random_to_key, HasOddParity, weak_keys};
ghost use Rattle.krb_crypto_message.specs.Sealed.{IsSealedAes, IsSealedDes3};
ghost use Rattle.krb_crypto_message.specs.Sealing.{IsOfNone, IsGiven, Opens};

/// The key of triple DES that a seed gives, whatever the seed, has 24 octets, each with an odd number of ones, and none of its
/// three keys of DES is weak (RFC 3961, 6.3.1).
pub fn des3_keys_are_sound()
    ensures size { (seed : List ℕ) → length (random_to_key seed) ≡ 24 }
    ensures odd { (seed : List ℕ) → All HasOddParity (random_to_key seed) }
    ensures strong { (seed : List ℕ) (part : ℕ) → part < 3 → ¬ (Contains weak_keys (take 8 (drop (8 * part) (random_to_key seed)))) }
{}

/// What was sealed under AES is opened to its payload, whatever the confounder, and is not rejected (RFC 3961, 5.3; RFC 3962,
/// 6).
pub fn aes_opens_what_was_sealed()
    ensures opened { (key : List ℕ) (usage : ℤ) (confounder payload octets opened : List ℕ) → length confounder ≡ 16
        → IsSealedAes key usage confounder payload octets
        → Opens 1 (IsGiven (IsSealedAes key usage) 16 octets) opened → opened ≡ payload }
    ensures kept { (key : List ℕ) (usage : ℤ) (confounder payload octets : List ℕ) → length confounder ≡ 16
        → IsSealedAes key usage confounder payload octets
        → ¬ (IsOfNone (IsGiven (IsSealedAes key usage) 16 octets)) }
{}

/// What was sealed under AES with SHA-2 is opened to its payload, whatever the confounder, and is not rejected (RFC 8009, 5).
pub fn sha2_opens_what_was_sealed()
    ensures opened { (size : AesSize) (key : List ℕ) (usage : ℤ) (confounder payload octets opened : List ℕ) → length confounder ≡ 16
        → IsSealedSha2 size key usage confounder payload octets
        → Opens 1 (IsGiven (IsSealedSha2 size key usage) 16 octets) opened → opened ≡ payload }
    ensures kept { (size : AesSize) (key : List ℕ) (usage : ℤ) (confounder payload octets : List ℕ) → length confounder ≡ 16
        → IsSealedSha2 size key usage confounder payload octets
        → ¬ (IsOfNone (IsGiven (IsSealedSha2 size key usage) 16 octets)) }
{}

/// What was sealed under triple DES is opened to its payload, padded with zeros to a multiple of 8 octets, whatever the
/// confounder, and is not rejected (RFC 3961, 5.3 and 6.3).
pub fn des3_opens_what_was_sealed()
    ensures opened { (key : List ℕ) (usage : ℤ) (confounder payload octets opened : List ℕ) → length confounder ≡ 8
        → IsSealedDes3 key usage confounder payload octets
        → Opens 8 (IsGiven (IsSealedDes3 key usage) 8 octets) opened → IsPadding 8 payload opened }
    ensures kept { (key : List ℕ) (usage : ℤ) (confounder payload octets : List ℕ) → length confounder ≡ 8
        → IsSealedDes3 key usage confounder payload octets
        → ¬ (IsOfNone (IsGiven (IsSealedDes3 key usage) 8 octets)) }
{}
