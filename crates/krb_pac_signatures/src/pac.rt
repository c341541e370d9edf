//! The checksums of a PAC.

ghost use Rattle.std.specs.Prelude.{◌≡◌, Some, IfOk};
ghost use Rattle.std.specs.Option.{IsSomeAnd, option_copied, option_map};
ghost use Rattle.krb_pac_signatures.specs.Signature.{signature_type};
ghost use Rattle.krb_pac_signatures.specs.Signatures.{server_message, full_message};
ghost use Rattle.krb_pac_signatures.specs.Verdict.{HaveTypes, IsVerdictOf, IsKdcVerdict, IsSaidUnder, IsSaidOver};

use crate::verdict::{Verdict, verify};
use crate::{PacSignatures, SignatureView};
use std::alloc::{AllocError, Global};

/// What is known of the server's checksum (MS-PAC 2.8.1) under the key of the service: it is over the PAC, with the octets of the server's
/// and the KDC's signature zeroed. The one allocation is as large as the PAC; `AllocError` where it failed.
pub fn server_verdict(
    alloc: Global,
    signatures: &PacSignatures,
    key: &[u8],
) -> Result<Verdict, AllocError>
    ensures { IfOk result (IsVerdictOf signatures.now.server key.now (server_message signatures.now)) }
{
    let Some(server) = signatures.server() else {
        return Ok(Verdict::Absent);
    };
    let message = signatures.server_message(alloc)?;
    Ok(verify(&server, key, &message))
}

/// What is known of the KDC's checksum (MS-PAC 2.8.2) under the key of the KDC: it is over the server's signature. It allocates nothing.
pub fn kdc_verdict(signatures: &PacSignatures, key: &[u8]) -> Verdict
    ensures { IsKdcVerdict signatures.now.kdc signatures.now.server key.now result }
{
    let Some(server) = signatures.server() else {
        return Verdict::Absent;
    };
    let Some(kdc) = signatures.kdc() else {
        return Verdict::Absent;
    };
    verify(&kdc, key, server.signature())
}

/// What is known of the checksum over the whole PAC (MS-PAC 2.8.4) under the key of the KDC: it is over the PAC, with the octets of the
/// server's, the KDC's and its own signature zeroed. The one allocation is as large as the PAC; `AllocError` where it failed.
pub fn full_verdict(
    alloc: Global,
    signatures: &PacSignatures,
    key: &[u8],
) -> Result<Verdict, AllocError>
    ensures { IfOk result (IsVerdictOf signatures.now.full key.now (full_message signatures.now)) }
{
    let Some(full) = signatures.full() else {
        return Ok(Verdict::Absent);
    };
    let message = signatures.full_message(alloc)?;
    Ok(verify(&full, key, &message))
}

/// What is known of the checksum of a ticket (MS-PAC 2.8.3) under the key of the KDC, over this message: the encoding of the EncTicketPart with
/// one zero octet in the place of the PAC. It allocates nothing.
pub fn ticket_verdict(signatures: &PacSignatures, key: &[u8], message: &[u8]) -> Verdict
    ensures { IsVerdictOf signatures.now.ticket key.now message.now result }
{
    let Some(ticket) = signatures.ticket() else {
        return Verdict::Absent;
    };
    verify(&ticket, key, message)
}

/// What is known of the server's checksum, over this message.
fn server_over(signatures: &PacSignatures, key: &[u8], message: &[u8]) -> Verdict
    ensures { IsVerdictOf signatures.now.server key.now message.now result }
{
    let Some(server) = signatures.server() else {
        return Verdict::Absent;
    };
    verify(&server, key, message)
}

/// What is known of the checksum over the whole PAC, over this message.
fn full_over(signatures: &PacSignatures, key: &[u8], message: &[u8]) -> Verdict
    ensures { IsVerdictOf signatures.now.full key.now message.now result }
{
    let Some(full) = signatures.full() else {
        return Verdict::Absent;
    };
    verify(&full, key, message)
}

/// The type of a checksum, where it is there.
fn type_of(given: &Option<SignatureView>) -> Option<u32>
    ensures { result ≡ option_map signature_type given.now }
{
    match given {
        Some(given) => Some(given.signature_type()),
        None => None,
    }
}

/// What is known of one checksum of a PAC.
#[derive(Clone, Copy, PartialEq, Eq)]
pub struct PacChecksum {
    /// SignatureType, the number of its type (MS-PAC 2.8); `None` where there is no such checksum.
    pub signature_type: Option<u32>,
    /// Whether it holds; `None` without the key of the KDC, or the ticket, that it takes.
    pub verdict: Option<Verdict>,
}

/// What is known of the four checksums of a PAC (MS-PAC 2.8).
#[derive(Clone, Copy, PartialEq, Eq)]
pub struct PacVerdicts {
    /// Of the server's (MS-PAC 2.8.1), under the key of the service.
    pub server: PacChecksum,
    /// Of the KDC's (MS-PAC 2.8.2), under the key of the KDC.
    pub kdc: PacChecksum,
    /// Of the ticket's (MS-PAC 2.8.3), under the key of the KDC, over the ticket.
    pub ticket: PacChecksum,
    /// Of the one over the whole PAC (MS-PAC 2.8.4), under the key of the KDC.
    pub full: PacChecksum,
}

/// The four checksums, by their types, with what is known of each.
fn with_types(
    signatures: &PacSignatures,
    server: Verdict,
    kdc: Option<Verdict>,
    ticket: Option<Verdict>,
    full: Option<Verdict>,
) -> PacVerdicts
    ensures types { HaveTypes signatures.now result }
    ensures server { result.server.verdict ≡ Some server }
    ensures kdc { result.kdc.verdict ≡ kdc }
    ensures ticket { result.ticket.verdict ≡ ticket }
    ensures full { result.full.verdict ≡ full }
{
    PacVerdicts {
        server: PacChecksum {
            signature_type: type_of(&signatures.server()),
            verdict: Some(server),
        },
        kdc: PacChecksum {
            signature_type: type_of(&signatures.kdc()),
            verdict: kdc,
        },
        ticket: PacChecksum {
            signature_type: type_of(&signatures.ticket()),
            verdict: ticket,
        },
        full: PacChecksum {
            signature_type: type_of(&signatures.full()),
            verdict: full,
        },
    }
}

/// What is known of the checksums of a PAC: which are there, of which type, and whether they hold. The server's is verified under the key of the
/// service; the KDC's, the one over the whole PAC and the ticket's under the key of the KDC, where that is given. The ticket's is over the
/// encoding of the EncTicketPart with one zero octet in the place of the PAC, which is verified where the caller gives it too.
///
/// The one allocation is as large as the PAC; `AllocError` where it failed.
pub fn verdicts(
    alloc: Global,
    signatures: &PacSignatures,
    service_key: &[u8],
    kdc_key: Option<&[u8]>,
    ticket_message: Option<&[u8]>,
) -> Result<PacVerdicts, AllocError>
    ensures types { IfOk result (HaveTypes signatures.now) }
    ensures server { IfOk result (λ v. IsSomeAnd v.server.verdict (IsVerdictOf signatures.now.server service_key.now (server_message signatures.now))) }
    ensures kdc { IfOk result (λ v. IsSaidUnder (option_copied kdc_key.entry) (IsKdcVerdict signatures.now.kdc signatures.now.server) v.kdc.verdict) }
    ensures full { IfOk result (λ v. IsSaidUnder (option_copied kdc_key.entry) (λ key. IsVerdictOf signatures.now.full key (full_message signatures.now))
        v.full.verdict) }
    ensures ticket { IfOk result (λ v. IsSaidOver (option_copied kdc_key.entry) (option_copied ticket_message.entry) (IsVerdictOf signatures.now.ticket)
        v.ticket.verdict) }
{
    let mut message = signatures.server_message(alloc)?;
    let server = server_over(signatures, service_key, &message);
    let Some(key) = kdc_key else {
        return Ok(with_types(signatures, server, None, None, None));
    };
    let kdc = kdc_verdict(signatures, key);
    let ticket = match ticket_message {
        Some(octets) => Some(ticket_verdict(signatures, key, octets)),
        None => None,
    };
    signatures.clear_full(&mut message);
    let full = full_over(signatures, key, &message);
    Ok(with_types(signatures, server, Some(kdc), ticket, Some(full)))
}
