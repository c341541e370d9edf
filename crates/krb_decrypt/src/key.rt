//! Keys with names.

ghost use Rattle.std.specs.Prelude.{◌≡◌, IfOk};
ghost use Rattle.krb_decrypt.specs.Keys.{suite_of};

use krb_crypto::CipherSuite;
use std::alloc::{AllocError, Global};
use std::marker::Model;

/// A key, and what it is called where it is said that it decrypted a part: any octets.
#[derive(Drop)]
pub struct Key {
    /// The suite that the key is of.
    pub suite: CipherSuite,
    /// The octets of the key. A key that has not as many as the suite's keys decrypts nothing.
    pub octets: Vec<u8>,
    /// The name.
    pub name: Vec<u8>,
}

impl Model for Key {
    ghost use Rattle.krb_decrypt.specs.Keys.{NamedKey};

    ghost Value = { NamedKey };

    ghost view = { λ k. record { suite = k.suite; octets = k.octets.items; name = k.name.items } };
}

impl Key {
    /// The same key.
    pub fn copy(&self, alloc: Global) -> Result<Key, AllocError>
        ensures { IfOk result (λ copy. copy ≡ self.now) }
    {
        Ok(Key {
            suite: self.suite.clone()?,
            octets: Vec::from_slice(alloc, &self.octets)?,
            name: Vec::from_slice(alloc, &self.name)?,
        })
    }
}

/// The suite of an encryption type, if there is one (RFC 3961, 8; RFC 3962, 7; RFC 8009, 7).
pub fn suite_of(etype: Option<i64>) -> Option<CipherSuite>
    ensures { result ≡ suite_of etype }
{
    match etype {
        Some(16) => Some(CipherSuite::Des3CbcSha1Kd),
        Some(17) => Some(CipherSuite::Aes128CtsHmacSha196),
        Some(18) => Some(CipherSuite::Aes256CtsHmacSha196),
        Some(19) => Some(CipherSuite::Aes128CtsHmacSha256128),
        Some(20) => Some(CipherSuite::Aes256CtsHmacSha384192),
        _ => None,
    }
}
