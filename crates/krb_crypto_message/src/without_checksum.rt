//! What the calls without a checksum return.

/// What `Cipher::encrypt_no_checksum` returns.
#[derive(Drop)]
pub struct EncryptWithoutChecksum {
    /// The encrypted octets, without the integrity checksum that goes after them.
    pub encrypted: Vec<u8>,
    /// The confounder that they were encrypted under.
    pub confounder: Vec<u8>,
    /// The key that the integrity checksum is made with.
    pub ki: Vec<u8>,
}

/// What `Cipher::decrypt_no_checksum` returns.
#[derive(Drop)]
pub struct DecryptWithoutChecksum {
    /// The payload, with what it was padded with.
    pub plaintext: Vec<u8>,
    /// The confounder that it was encrypted under.
    pub confounder: Vec<u8>,
    /// The integrity checksum after the encrypted octets, which was not compared.
    pub checksum: Vec<u8>,
    /// The key that the integrity checksum is made with.
    pub ki: Vec<u8>,
}
