//! What the program is asked to do.

use krb_crypto::CipherSuite;

/// The arguments ETYPE KEYHEX USAGE: a suite, the octets of a key, which may be of any number, and a key usage.
#[derive(Drop)]
pub struct SealingKey {
    pub suite: CipherSuite,
    pub octets: Vec<u8>,
    pub usage: i32,
}

/// What the program is asked to do, each time to an `EncTicketPart`.
#[derive(Drop)]
pub enum Command {
    /// Read one and write it again: the argument `check`, alone.
    Check,
    /// Seal one under a confounder: `seal ETYPE KEYHEX USAGE CONFHEX`.
    Seal {
        key: SealingKey,
        confounder: Vec<u8>,
    },
    /// Open one: `open ETYPE KEYHEX USAGE`.
    Open {
        key: SealingKey,
    },
}
