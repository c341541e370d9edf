//! The signatures of a PAC, and what they are over.

ghost use Rattle.std.specs.Prelude.{◌≡◌, ◌+◌, ◌*◌, ◌≤◌, ℕ, List, ◌++◌, Option, IfOk, IfErr, length, take, drop, replicate};
ghost use Rattle.std.specs.Option.{option_map, ForSome};
ghost use Rattle.krb_pac_signatures.specs.Signature.{is_signature};
ghost use Rattle.krb_pac_signatures.specs.Signatures.{Placed, Signatures, placed_in, IsCutShort, IsWhole, SignaturesOf, SignaturesRejected, IsOfOctets, zeroed, cleared, server_message, full_message, IsInside};
ghost use Rattle.krb_pac_signatures.specs.declared.error.PacSignatureError.TheVariants as errors;

use crate::error::PacSignatureError;
use crate::signature::SignatureView;
use krb_pac::{NumberedPacView, PacBufferType};
use std::alloc::{AllocError, Global};
use std::marker::Model;

/// A signature, and how many octets of the PAC are before it.
#[derive(Drop)]
pub(crate) struct PlacedView<'a> {
    at: usize,
    signature: SignatureView<'a>,
}

impl<'a> Model for PlacedView<'a> {
    ghost Value = { Placed };

    ghost view = { λ p. record { at = p.at; octets = p.signature } };
}

/// The checksums of a PAC over the octets that the caller holds: which are there, of which type, and whether they hold. It takes no
/// memory.
#[derive(Drop)]
pub struct PacSignatures<'a> {
    octets: &'a [u8],
    server: Option<PlacedView<'a>>,
    kdc: Option<PlacedView<'a>>,
    ticket: Option<PlacedView<'a>>,
    full: Option<PlacedView<'a>>,
}

impl<'a> Model for PacSignatures<'a> {
    ghost Value = { Signatures };

    ghost view = { λ s. record { octets = s.octets.now; server = s.server; kdc = s.kdc; ticket = s.ticket; full = s.full } };

    ghost invariant = { λ s. ForSome s.server (IsInside s.octets.now) × ForSome s.kdc (IsInside s.octets.now) × ForSome s.full (IsInside s.octets.now) };
}

impl<'a> PacSignatures<'a> {
    /// The checksums of the PAC that the octets are, the first of each type.
    ///
    /// Buffers of all types may be there, those that MS-PAC does not list too: they are octets of the PAC like others, and no reason to
    /// refuse it. `Pac` where the octets are no PAC, as `NumberedPacView::new` says; then `Truncated`, where one of the four is there and
    /// is no signature. There is no other error, since no memory is taken.
    pub fn new(octets: &'a [u8]) -> Result<Self, PacSignatureError>
        ensures found { IfOk result (SignaturesOf octets.now) }
        ensures rejected { IfErr result (SignaturesRejected octets.now) }
        ensures memory { IfErr result IsOfOctets }
    {
        let pac = NumberedPacView::new(octets)?;
        let server = placed(&pac, PacBufferType::ServerChecksum)?;
        let kdc = placed(&pac, PacBufferType::KdcChecksum)?;
        let ticket = placed(&pac, PacBufferType::TicketChecksum)?;
        let full = placed(&pac, PacBufferType::FullPacChecksum)?;
        Ok(PacSignatures {
            octets,
            server,
            kdc,
            ticket,
            full,
        })
    }

    /// The server's signature (MS-PAC 2.8.1), where it is there.
    pub fn server(&self) -> Option<SignatureView<'a>>
        ensures { result ≡ option_map (λ (p : Placed). p.octets) self.now.server }
    {
        signature_of(&self.server)
    }

    /// The KDC's signature (MS-PAC 2.8.2), where it is there.
    pub fn kdc(&self) -> Option<SignatureView<'a>>
        ensures { result ≡ option_map (λ (p : Placed). p.octets) self.now.kdc }
    {
        signature_of(&self.kdc)
    }

    /// The ticket's signature (MS-PAC 2.8.3), where it is there. It is over the ticket, and not verified here.
    pub fn ticket(&self) -> Option<SignatureView<'a>>
        ensures { result ≡ option_map (λ (p : Placed). p.octets) self.now.ticket }
    {
        signature_of(&self.ticket)
    }

    /// The KDC's signature over the whole PAC (MS-PAC 2.8.4), where it is there.
    pub fn full(&self) -> Option<SignatureView<'a>>
        ensures { result ≡ option_map (λ (p : Placed). p.octets) self.now.full }
    {
        signature_of(&self.full)
    }

    /// What the server's checksum is over (MS-PAC 2.8.1): the PAC's octets, those of the server's and the KDC's signature zeroed. The
    /// types of the signatures stay. The one allocation is as large as the PAC; `AllocError` where it failed.
    pub fn server_message(&self, alloc: Global) -> Result<Vec<u8>, AllocError>
        ensures message { IfOk result (λ m. m.items ≡ server_message self.now) }
        ensures len { IfOk result (λ m. length m.items ≡ length self.now.octets) }
    {
        let mut message = Vec::from_slice(alloc, self.octets)?;
        clear(&mut message, &self.server);
        clear(&mut message, &self.kdc);
        Ok(message)
    }

    /// What the checksum over the whole PAC is over (MS-PAC 2.8.4): the PAC's octets, those of the server's, the KDC's and its own
    /// signature zeroed. The one allocation is as large as the PAC; `AllocError` where it failed.
    pub fn full_message(&self, alloc: Global) -> Result<Vec<u8>, AllocError>
        ensures { IfOk result (λ m. m.items ≡ full_message self.now) }
    {
        let mut message = self.server_message(alloc)?;
        self.clear_full(&mut message);
        Ok(message)
    }

    /// Zeroes the octets of the signature over the whole PAC, where it is there, in octets that are as many as the PAC's. What the server's
    /// checksum is over becomes what this one is over, with no second copy.
    pub fn clear_full(&self, octets: &mut [u8])
        requires { length octets.old ≡ length self.now.octets }
        ensures cleared { octets.new ≡ cleared self.now.full octets.old }
        ensures len { length octets.new ≡ length octets.old }
    {
        clear(octets, &self.full);
    }
}

/// The signature of a type in a PAC, where it is there.
fn placed<'a>(
    pac: &NumberedPacView<'a>,
    ul_type: PacBufferType,
) -> Result<Option<PlacedView<'a>>, PacSignatureError>
    ensures ok { IfOk result (λ o. (o ≡ placed_in ul_type pac.now) × IsWhole o) }
    ensures err { IfErr result (λ e. (e ≡ errors.Truncated) × IsCutShort (placed_in ul_type pac.now)) }
{
    let Some(buffer) = pac.find(u32::from(ul_type)) else {
        return Ok(None);
    };
    let signature = SignatureView::new(buffer.octets())?;
    Ok(Some(PlacedView {
        at: buffer.info_buffer().offset as usize,
        signature,
    }))
}

fn signature_of<'a>(placed: &Option<PlacedView<'a>>) -> Option<SignatureView<'a>>
    ensures { result ≡ option_map (λ (p : Placed). p.octets) placed.now }
{
    match placed {
        Some(placed) => Some(placed.signature.again()),
        None => None,
    }
}

/// Zeroes the octets of a signature in a PAC.
fn clear(octets: &mut [u8], placed: &Option<PlacedView>)
    requires { ForSome placed.now (IsInside octets.old) }
    ensures cleared { octets.new ≡ cleared placed.now octets.old }
    ensures len { length octets.new ≡ length octets.old }
{
    if let Some(placed) = placed {
        let signature = placed.signature.signature();
        zero(octets, placed.at + 4, signature.len());
    }
}

/// Zeroes so many octets from a place on.
fn zero(octets: &mut [u8], at: usize, count: usize)
    requires { at + count ≤ length octets.old }
    ensures zeroed { octets.new ≡ zeroed at count octets.old }
    ensures len { length octets.new ≡ length octets.old }
{
    octets[at..at + count].fill(0);
}
