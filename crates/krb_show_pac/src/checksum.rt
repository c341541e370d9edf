//! The checksums of a PAC, each with what it is over.

ghost use Rattle.std.specs.Prelude.{◌≡◌, IfOk, MatchBool};
ghost use Rattle.krb_pac_signatures.specs.Signature.{signature_type};
ghost use Rattle.krb_pac_signatures.specs.declared.verdict.Verdict.TheVariants as verdict;
ghost use Rattle.krb_show_pac.specs.Checksums.{HasVerdict, full_checksum, kdc_checksum, over, server_checksum};

use krb_pac_signatures::{PacSignatures, SignatureView, Verdict, verify};
use std::alloc::{AllocError, Global};
use std::marker::Model;

/// A signature of a PAC, and the octets that it is over.
#[derive(Drop)]
pub(crate) struct PacChecksum<'a> {
    given: SignatureView<'a>,
    message: Vec<u8>,
}

impl<'a> Model for PacChecksum<'a> {
    ghost use Rattle.krb_show_pac.specs.Checksums.{PacChecksum};

    ghost Value = { PacChecksum };

    ghost view = { λ c. record { given = c.given; message = c.message.items } };
}

impl<'a> PacChecksum<'a> {
    /// The number of its type.
    pub(crate) fn number(&self) -> u32
        ensures { result ≡ signature_type self.now.given }
    {
        self.given.signature_type()
    }

    /// What is known of it under the octets of a key.
    pub(crate) fn verdict(&self, key: &[u8]) -> Verdict
        ensures { HasVerdict self.now key.now result }
    {
        verify(&self.given, key, &self.message)
    }

    /// Whether it fails under the octets of a key, which has the length of its type.
    pub(crate) fn differs(&self, key: &[u8]) -> bool
        ensures { MatchBool result (HasVerdict self.now key.now verdict.Differs) (HasVerdict self.now key.now verdict.Differs → ⊥) }
    {
        match self.verdict(key) {
            Verdict::Differs => true,
            _ => false,
        }
    }

    /// Whether it holds under the octets of a key.
    pub(crate) fn holds(&self, key: &[u8]) -> bool
        ensures { MatchBool result (HasVerdict self.now key.now verdict.Holds) (HasVerdict self.now key.now verdict.Holds → ⊥) }
    {
        match self.verdict(key) {
            Verdict::Holds => true,
            _ => false,
        }
    }
}

/// The server's checksum (MS-PAC 2.8.1), where it is there.
pub(crate) fn server<'a>(
    alloc: Global,
    signatures: &PacSignatures<'a>,
) -> Result<Option<PacChecksum<'a>>, AllocError>
    ensures { IfOk result (λ found. found ≡ server_checksum signatures.now) }
{
    let Some(given) = signatures.server() else {
        return Ok(None);
    };
    let message = signatures.server_message(alloc)?;
    Ok(Some(PacChecksum { given, message }))
}

/// The KDC's checksum (MS-PAC 2.8.2), where it and the server's signature are there.
pub(crate) fn kdc<'a>(
    alloc: Global,
    signatures: &PacSignatures<'a>,
) -> Result<Option<PacChecksum<'a>>, AllocError>
    ensures { IfOk result (λ found. found ≡ kdc_checksum signatures.now) }
{
    let Some(server) = signatures.server() else {
        return Ok(None);
    };
    let Some(given) = signatures.kdc() else {
        return Ok(None);
    };
    let message = Vec::from_slice(alloc, server.signature())?;
    Ok(Some(PacChecksum { given, message }))
}

/// The KDC's checksum over the whole PAC (MS-PAC 2.8.4), where it is there.
pub(crate) fn full<'a>(
    alloc: Global,
    signatures: &PacSignatures<'a>,
) -> Result<Option<PacChecksum<'a>>, AllocError>
    ensures { IfOk result (λ found. found ≡ full_checksum signatures.now) }
{
    let Some(given) = signatures.full() else {
        return Ok(None);
    };
    let message = signatures.full_message(alloc)?;
    Ok(Some(PacChecksum { given, message }))
}

/// The ticket's checksum (MS-PAC 2.8.3), where it is there, over the message of the ticket.
pub(crate) fn ticket<'a>(
    signatures: &PacSignatures<'a>,
    message: Vec<u8>,
) -> Option<PacChecksum<'a>>
    ensures { result ≡ over message.items signatures.now.ticket }
{
    let Some(given) = signatures.ticket() else {
        return None;
    };
    Some(PacChecksum { given, message })
}
