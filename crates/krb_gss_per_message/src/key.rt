//! Keys of tokens: who sends, under which key, and the flags and key usages that follow.

ghost use Rattle.std.specs.Prelude.{◌≡◌, ◌<◌, IfOk, IfErr};
ghost use Rattle.std.specs.Int.{bit_at};
ghost use Rattle.krb_crypto.specs.BySuite.{checksum_suite_of, confounder_octets_of, padding_octets_of};
ghost use Rattle.krb_crypto.specs.PreparedKeys.{IsChecksumPreparedFor, IsPreparedFor};

use krb_crypto::prepared::{ChecksumKey, OpeningKey, SealingKey};
use krb_crypto::{Cipher, CipherSuite, KerberosCryptoError, KerberosCryptoResult};
use krb_registry::etypes::DES3_CBC_SHA1_KD;
use krb_registry::key_usages::{ACCEPTOR_SEAL, ACCEPTOR_SIGN, INITIATOR_SEAL, INITIATOR_SIGN};
use std::marker::Model;

/// The flag SentByAcceptor (RFC 4121, 4.2.2).
pub(crate) const SENT_BY_ACCEPTOR: u8 = 1;

/// The flag Sealed (RFC 4121, 4.2.2).
pub(crate) const SEALED: u8 = 2;

/// The flag AcceptorSubkey (RFC 4121, 4.2.2).
pub(crate) const ACCEPTOR_SUBKEY: u8 = 4;

/// Who sends a token (RFC 4121, 4.2.2).
#[derive(Drop, Clone, Copy, PartialEq, Eq)]
pub enum Sender {
    /// The side that began the context.
    Initiator,
    /// The side that accepted it.
    Acceptor,
}

/// The key that a sender's tokens are made and verified with (RFC 4121, 2): of the suites of AES, with as many octets as the suite's keys have.
///
/// A side makes its tokens with its own `Sender`, and verifies those that come with the other's.
#[derive(Drop)]
pub struct TokenKey<'a> {
    suite: CipherSuite,
    octets: &'a [u8],
    sender: Sender,
    acceptor_subkey: bool,
}

impl<'a> Model for TokenKey<'a> {
    ghost use Rattle.krb_gss_per_message.specs.Keys.{Key, IsTokenKey};

    ghost Value = { Key };

    ghost view = { λ k. record { suite = k.suite; octets = k.octets.now; sender = k.sender; acceptor_subkey = k.acceptor_subkey } };

    ghost invariant = { λ k. IsTokenKey k.suite k.octets.now };
}

impl<'a> TokenKey<'a> {
    ghost use Rattle.krb_gss_per_message.specs.Keys.{IsNewer, IsTokenKey, RefusesTokenKey};
    ghost use Rattle.krb_gss_per_message.specs.Keys.{sign_usage_of, seal_usage_of, flags_of};

    /// The key of a context for the tokens that this side sends: `acceptor_subkey` says that it is the subkey that the acceptor asserted, and
    /// not the initiator's or the session key (RFC 4121, 2 and 4.2.2).
    ///
    /// `AlgorithmIdentifier` for triple DES, whose tokens are those of RFC 1964; else `KeyLength` where the octets are not as many as the suite's
    /// keys have.
    pub fn new(
        suite: CipherSuite,
        octets: &'a [u8],
        sender: Sender,
        acceptor_subkey: bool,
    ) -> KerberosCryptoResult<TokenKey<'a>>
        ensures key { IfOk result (λ key. key ≡ record { suite = suite; octets = octets.now; sender = sender; acceptor_subkey = acceptor_subkey }) }
        ensures valid { IfOk result (λ _. IsTokenKey suite octets.now) }
        ensures refused { IfErr result (RefusesTokenKey suite octets.now) }
    {
        if suite == CipherSuite::Des3CbcSha1Kd {
            return Err(KerberosCryptoError::AlgorithmIdentifier(DES3_CBC_SHA1_KD));
        }
        if octets.len() != suite.key_size() {
            return Err(KerberosCryptoError::KeyLength(octets.len(), suite.key_size()));
        }
        Ok(TokenKey {
            suite,
            octets,
            sender,
            acceptor_subkey,
        })
    }

    /// Who sends its tokens.
    pub fn sender(&self) -> Sender
        ensures { result ≡ self.now.sender }
    {
        self.sender
    }

    /// Whether it is the subkey that the acceptor asserted.
    pub fn acceptor_subkey(&self) -> bool
        ensures { result ≡ self.now.acceptor_subkey }
    {
        self.acceptor_subkey
    }

    /// The flags of this sender's tokens.
    pub(crate) fn flags(&self, sealed: bool) -> u8
        ensures { result ≡ flags_of self.now sealed }
    {
        let sender = match self.sender {
            Sender::Initiator => 0,
            Sender::Acceptor => SENT_BY_ACCEPTOR,
        };
        let sealed = if sealed { SEALED } else { 0 };
        let subkey = if self.acceptor_subkey {
            ACCEPTOR_SUBKEY
        } else {
            0
        };
        sender | sealed | subkey
    }

    fn sign_usage(&self) -> i32
        ensures { result ≡ sign_usage_of self.now.sender }
    {
        match self.sender {
            Sender::Acceptor => ACCEPTOR_SIGN,
            Sender::Initiator => INITIATOR_SIGN,
        }
    }

    fn seal_usage(&self) -> i32
        ensures { result ≡ seal_usage_of self.now.sender }
    {
        match self.sender {
            Sender::Acceptor => ACCEPTOR_SEAL,
            Sender::Initiator => INITIATOR_SEAL,
        }
    }

    fn checksum_key(&self, usage: i32) -> ChecksumKey
        ensures suite { result.suite ≡ checksum_suite_of self.now.suite }
        ensures prepared { IsChecksumPreparedFor self.now.octets usage result }
    {
        match ChecksumKey::new(&self.suite.checksum_type(), self.octets, usage) {
            Ok(key) => key,
            Err(_) => unreachable!(),
        }
    }

    /// The key of the checksums of MIC tokens.
    pub(crate) fn mic_key(&self) -> ChecksumKey
        ensures suite { result.suite ≡ checksum_suite_of self.now.suite }
        ensures prepared { IsChecksumPreparedFor self.now.octets (sign_usage_of self.now.sender) result }
    {
        self.checksum_key(self.sign_usage())
    }

    /// The key of the checksums of Wrap tokens.
    pub(crate) fn clear_key(&self) -> ChecksumKey
        ensures suite { result.suite ≡ checksum_suite_of self.now.suite }
        ensures prepared { IsChecksumPreparedFor self.now.octets (seal_usage_of self.now.sender) result }
    {
        self.checksum_key(self.seal_usage())
    }

    /// The key that Wrap tokens are sealed with.
    pub(crate) fn sealing_key(&self) -> SealingKey
        ensures suite { result.suite ≡ self.now.suite }
        ensures confounder { confounder_octets_of result.suite ≡ 16 }
        ensures prepared { IsPreparedFor self.now.octets (seal_usage_of self.now.sender) result }
    {
        match SealingKey::new(&self.suite, self.octets, self.seal_usage()) {
            Ok(key) => key,
            Err(_) => unreachable!(),
        }
    }

    /// The key that Wrap tokens are opened with.
    pub(crate) fn opening_key(&self) -> OpeningKey
        ensures suite { result.suite ≡ self.now.suite }
        ensures confounder { confounder_octets_of result.suite ≡ 16 }
        ensures padding { padding_octets_of result.suite ≡ 1 }
        ensures prepared { IsPreparedFor self.now.octets (seal_usage_of self.now.sender) result }
    {
        match OpeningKey::new(&self.suite, self.octets, self.seal_usage()) {
            Ok(key) => key,
            Err(_) => unreachable!(),
        }
    }
}
