//! The trait of ciphers.

ghost use Rattle.std.specs.Prelude.{◌≡◌, ◌≢◌, ℕ, ℤ, ◌<◌, ◌≤◌, ◌/◌, List, length, vec_len, MatchResult, IfOk, IfErr};
ghost use Rattle.krb_crypto_hash.specs.CryptoError.{IsMemoryOr, RejectsKey};
ghost use Rattle.krb_crypto_hash.specs.declared.error.KerberosCryptoError.{KerberosCryptoError};
ghost use Rattle.krb_crypto_hash.specs.declared.error.KerberosCryptoError.TheVariants.{OutOfMemory};
ghost use Rattle.krb_crypto_message.specs.Sealing.{IsTheOne, IsOfNone, IsGiven, Opens, HasNoPayload, Encrypts, OpensUnchecked, HasNoPayloadUnchecked};
ghost use Rattle.krb_crypto.specs.declared.cipher_suite.CipherSuite.{CipherSuite};
ghost use Rattle.krb_crypto.specs.declared.checksum_suite.ChecksumSuite.{ChecksumSuite};

use crate::checksum_suite::ChecksumSuite;
use crate::cipher_suite::CipherSuite;
use krb_crypto_block::{KerberosCryptoError, KerberosCryptoResult};
use krb_crypto_message::{DecryptWithoutChecksum, EncryptWithoutChecksum};
use std::alloc::Global;

/// An encryption scheme with its integrity checksum (RFC 3961, 3), which callers pass as `&dyn Cipher`.
///
/// Lengths are in octets. A key has `key_size` octets; another is rejected. Every call that returns a `Result`
/// may return `OutOfMemory`, where an allocation failed.
pub trait Cipher {
    // Under this key, key usage and confounder the payload becomes these octets.
    ghost meaning: { Self → List ℕ → ℤ → List ℕ → List ℕ → List ℕ → Type 0 };

    // The octets of a key, of a confounder, those to a multiple of which a payload is padded, and those of a checksum.
    ghost key_octets: { Self → ℕ };

    ghost confounder_octets: { Self → ℕ };

    ghost padding_octets: { Self → ℕ };

    ghost checksum_octets: { Self → ℕ };

    // The key of the checksum that is sealed in, under this key and usage, and the checksum of a message under it.
    ghost integrity_key: { Self → List ℕ → ℤ → List ℕ };

    ghost integrity_checksum: { Self → List ℕ → ℤ → List ℕ → List ℕ };

    // The bits of a seed, and the key that a seed gives.
    ghost seed_bits: { Self → ℕ };

    ghost key_of_seed: { Self → List ℕ → List ℕ };

    // This password and salt give this key.
    ghost password_key: { Self → List ℕ → List ℕ → List ℕ → Type 0 };

    // Why octets are not opened under this key and usage, and why a password and a salt give no key.
    ghost unopened: { Self → List ℕ → ℤ → List ℕ → KerberosCryptoError → Type 0 };

    ghost no_password_key: { Self → List ℕ → List ℕ → KerberosCryptoError → Type 0 };

    // The suites whose numbers name the scheme and its checksum.
    ghost encryption_type: { Self → CipherSuite };

    ghost keyed_checksum_type: { Self → ChecksumSuite };

    /// The octets of a key.
    fn key_size(&self) -> usize
        ensures { result ≡ key_octets self.now };

    /// The bits that `random_to_key` makes a key of.
    fn seed_bit_len(&self) -> usize
        ensures { result ≡ seed_bits self.now };

    /// The octets of a confounder.
    fn confounder_size(&self) -> usize
        ensures { result ≡ confounder_octets self.now };

    /// The octets to a multiple of which a payload is padded with zeros, at least one.
    fn fill_size(&self) -> usize
        ensures value { result ≡ padding_octets self.now }
        ensures positive { 0 < result };

    /// The suite whose number names the scheme in an EncryptedData.
    fn cipher_type(&self) -> CipherSuite
        ensures { result ≡ encryption_type self.now };

    /// The suite whose number names the scheme's checksum in a Checksum.
    fn checksum_type(&self) -> ChecksumSuite
        ensures { result ≡ keyed_checksum_type self.now };

    /// The payload, encrypted under the confounder, and the integrity checksum after it.
    ///
    /// The confounder has `confounder_size` octets. A key of another length is `KeyLength`; `OutOfMemory` is the only other error.
    fn encrypt(
        &self,
        alloc: Global,
        key: &[u8],
        key_usage: i32,
        payload: &[u8],
        confounder: &[u8],
    ) -> KerberosCryptoResult<Vec<u8>>
        requires { length confounder.now ≡ confounder_octets self.now }
        ensures key { IfOk result (λ _. length key.now ≡ key_octets self.now) }
        ensures sealed { IfOk result (λ octets. IsTheOne (meaning self.now key.now key_usage confounder.now payload.now) octets.items) }
        ensures rejected { IfErr result (RejectsKey (key_octets self.now) key.now) };

    /// The payload that was encrypted to these octets, with the fewest zeros to a multiple of `fill_size` after it.
    ///
    /// A key of another length is rejected, and so are octets that no payload is encrypted to under any confounder; each
    /// suite says for which of these first, and how.
    fn decrypt(
        &self,
        alloc: Global,
        key: &[u8],
        key_usage: i32,
        cipher_data: &[u8],
    ) -> KerberosCryptoResult<Vec<u8>>
        ensures key { IfOk result (λ _. length key.now ≡ key_octets self.now) }
        ensures opened { IfOk result (λ payload. Opens (padding_octets self.now)
            (IsGiven (meaning self.now key.now key_usage) (confounder_octets self.now) cipher_data.now) payload.items) }
        ensures rejected { length key.now ≡ key_octets self.now
            → IfErr result (λ e. IsMemoryOr e (HasNoPayload (meaning self.now key.now key_usage) (confounder_octets self.now) cipher_data.now)) }
        ensures exact { IfErr result (λ e. IsMemoryOr e (unopened self.now key.now key_usage cipher_data.now e)) };

    /// As `encrypt`, without the integrity checksum after the encrypted octets, which is the caller's to make.
    fn encrypt_no_checksum(
        &self,
        alloc: Global,
        key: &[u8],
        key_usage: i32,
        payload: &[u8],
        confounder: &[u8],
    ) -> KerberosCryptoResult<EncryptWithoutChecksum>
        requires { length confounder.now ≡ confounder_octets self.now }
        ensures key { IfOk result (λ _. length key.now ≡ key_octets self.now) }
        ensures encrypted { IfOk result (λ made. IsTheOne
            (Encrypts (meaning self.now key.now key_usage) (checksum_octets self.now) confounder.now payload.now) made.encrypted.items) }
        ensures confounder { IfOk result (λ made. made.confounder.items ≡ confounder.now) }
        ensures ki { IfOk result (λ made. made.ki.items ≡ integrity_key self.now key.now key_usage) }
        ensures rejected { IfErr result (RejectsKey (key_octets self.now) key.now) };

    /// As `decrypt`, with the integrity checksum returned and not compared.
    ///
    /// A key of another length is rejected, and so are octets that no payload is encrypted to, whatever the checksum after
    /// them; as in `decrypt`, but for `IntegrityCheck`.
    fn decrypt_no_checksum(
        &self,
        alloc: Global,
        key: &[u8],
        key_usage: i32,
        cipher_data: &[u8],
    ) -> KerberosCryptoResult<DecryptWithoutChecksum>
        ensures key { IfOk result (λ _. length key.now ≡ key_octets self.now) }
        ensures opened { IfOk result (λ made. OpensUnchecked (padding_octets self.now) (confounder_octets self.now) (checksum_octets self.now)
            (meaning self.now key.now key_usage) cipher_data.now made.confounder.items made.plaintext.items made.checksum.items) }
        ensures ki { IfOk result (λ made. made.ki.items ≡ integrity_key self.now key.now key_usage) }
        ensures rejected { length key.now ≡ key_octets self.now → IfErr result (λ e. IsMemoryOr e
            (HasNoPayloadUnchecked (confounder_octets self.now) (checksum_octets self.now) (meaning self.now key.now key_usage) cipher_data.now)) }
        ensures exact { IfErr result (λ e. IsMemoryOr e (unopened self.now key.now key_usage cipher_data.now e × (e ≢ KerberosCryptoError.IntegrityCheck))) };

    /// The integrity checksum of just these octets under the key Ki (RFC 3961, 5.3): they have no confounder and
    /// no padding. `encrypt` appends, in the suites of RFC 3961 and RFC 3962, the checksum of the concatenated confounder, payload
    /// and padding, and in those of RFC 8009 the one of 16 zero octets and the encrypted octets. The checksum that stands alone in
    /// a message is another, made under the key Kc.
    ///
    /// A key of another length is `KeyLength`; `OutOfMemory` is the only other error.
    fn encryption_checksum(
        &self,
        alloc: Global,
        key: &[u8],
        key_usage: i32,
        payload: &[u8],
    ) -> KerberosCryptoResult<Vec<u8>>
        ensures key { IfOk result (λ _. length key.now ≡ key_octets self.now) }
        ensures checksum { IfOk result (λ checksum. checksum.items ≡ integrity_checksum self.now key.now key_usage payload.now) }
        ensures rejected { IfErr result (RejectsKey (key_octets self.now) key.now) };

    /// The key that a password and a salt give (string-to-key). A password and a salt that give none are rejected.
    fn generate_key_from_password(
        &self,
        alloc: Global,
        password: &[u8],
        salt: &[u8],
    ) -> KerberosCryptoResult<Vec<u8>>
        ensures size { IfOk result (λ key. length key.items ≡ key_octets self.now) }
        ensures made { IfOk result (λ key. IsTheOne (password_key self.now password.now salt.now) key.items) }
        ensures rejected { IfErr result (λ e. IsMemoryOr e (IsOfNone (password_key self.now password.now salt.now))) }
        ensures exact { IfErr result (λ e. IsMemoryOr e (no_password_key self.now password.now salt.now e)) };

    /// The key that a seed gives (random-to-key). The seed has at least `seed_bit_len` / 8 octets; of just so many a
    /// key of `key_size` octets is made.
    fn random_to_key(&self, alloc: Global, key: Vec<u8>) -> KerberosCryptoResult<Vec<u8>>
        requires { seed_bits self.now / 8 ≤ vec_len key }
        ensures made { MatchResult result (λ made. made.items ≡ key_of_seed self.now key.items) (λ e. e ≡ OutOfMemory) }
        ensures size { vec_len key ≡ seed_bits self.now / 8 → IfOk result (λ made. length made.items ≡ key_octets self.now) };
}
