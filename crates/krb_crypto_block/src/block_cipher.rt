//! Block ciphers, as the modes of operation use them: a key may encrypt, or decrypt, or both.

ghost use Rattle.std.specs.Prelude.{◌≡◌, ℕ, List};

/// A block cipher under a key that encrypts. A block has `SIZE` octets.
pub(crate) trait BlockEncrypt<const SIZE: usize> {
    /// The block that the cipher makes of one.
    ghost encrypts: { Self → List ℕ → List ℕ };

    /// The block that it makes one of.
    ghost decrypts: { Self → List ℕ → List ℕ };

    fn encrypt_block(&self, block: &[u8; SIZE]) -> [u8; SIZE]
        ensures { result ≡ encrypts self.now block.now };
}

/// A block cipher under a key that decrypts. A block has `SIZE` octets.
pub(crate) trait BlockDecrypt<const SIZE: usize> {
    /// The block that the cipher makes of one.
    ghost encrypts: { Self → List ℕ → List ℕ };

    /// The block that it makes one of.
    ghost decrypts: { Self → List ℕ → List ℕ };

    fn decrypt_block(&self, block: &[u8; SIZE]) -> [u8; SIZE]
        ensures { result ≡ decrypts self.now block.now };

    /// Two blocks, each decrypted.
    fn decrypt_two(&self, first: &[u8; SIZE], second: &[u8; SIZE]) -> ([u8; SIZE], [u8; SIZE])
        ensures first { result.0 ≡ decrypts self.now first.now }
        ensures second { result.1 ≡ decrypts self.now second.now };
}
