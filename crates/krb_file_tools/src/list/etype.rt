//! Encryption types as text.

ghost use Rattle.std.specs.Prelude.{◌≡◌, ℕ, List, IfOk, codes};
ghost use Rattle.krb_file_tools.specs.Texts.{IsAnyEtypeText, IsEncodedEtypeText, IsEtypeText};
ghost use Rattle.krb_show_text.specs.Text.{ArePrintable};

use krb_der::{DerEncode, IntegerAsn1};
use krb_registry::name_laws::names_are_plain;
use krb_registry::{Kind, name};
use krb_show::open;
use krb_types::data_types::Ticket;
use std::alloc::{AllocError, Global};

/// The name of an encryption type, or `etype` and its number.
#[tactic(auto, using(crate::proofs::Printable::printable_row, crate::proofs::Printable::printable_etype))]
pub(crate) fn text_of_etype(alloc: Global, number: i64) -> Result<Vec<u8>, AllocError>
    ensures text { IfOk result (λ text. IsEtypeText number text.items) }
    ensures printable { IfOk result (λ text. ArePrintable text.items) }
{
    names_are_plain();
    match name(Kind::EncryptionType, number) {
        Some(name) => {
            let mut text = Vec::with_capacity(alloc, name.len())?;
            text.extend_from_slice(name.as_bytes())?;
            Ok(text)
        }
        None => {
            let digits = format!(in alloc; "etype {number}")?;
            Ok(digits.into_bytes())
        }
    }
}

/// The word for an encryption type that cannot be read.
fn unreadable(alloc: Global) -> Result<Vec<u8>, AllocError>
    ensures text { IfOk result (λ text. text.items ≡ codes "unreadable") }
    ensures printable { IfOk result (λ text. ArePrintable text.items) }
{
    let mut text = Vec::with_capacity(alloc, 10)?;
    text.extend_from_slice(b"unreadable")?;
    Ok(text)
}

/// The name of an encryption type of any length, or `unreadable` where it does not fit 64 bits.
fn text_of_any_etype(alloc: Global, number: &IntegerAsn1) -> Result<Vec<u8>, AllocError>
    ensures text { IfOk result (λ text. IsAnyEtypeText number.now text.items) }
    ensures printable { IfOk result (λ text. ArePrintable text.items) }
{
    match number.to_i64() {
        Some(number) => text_of_etype(alloc, number),
        None => unreadable(alloc),
    }
}

/// The name of the encryption type of the sealed part of a ticket (RFC 4120, 5.3).
fn text_of_sealed_etype(alloc: Global, ticket: &Ticket) -> Result<Vec<u8>, AllocError>
    ensures text { IfOk result (λ text. IsAnyEtypeText ticket.now.enc_part.etype text.items) }
    ensures printable { IfOk result (λ text. ArePrintable text.items) }
{
    text_of_any_etype(alloc, &ticket.0.enc_part.0.etype.0)
}

/// How the encryption type of a ticket is read from its octets.
pub(crate) trait TicketEtypes {
    /// Which octets have which text.
    ghost etype: { List ℕ → List ℕ → Type 0 };

    /// The text of the encryption type of the ticket that these octets are.
    fn text_of_ticket_etype(alloc: Global, octets: &[u8]) -> Result<Vec<u8>, AllocError>
        ensures text { IfOk result (λ text. etype octets.now text.items) }
        ensures printable { IfOk result (λ text. ArePrintable text.items) };
}

/// Tickets in DER (RFC 4120, 5.3): the encryption type of the sealed part, or `unreadable` where the octets are no ticket.
#[derive(Drop)]
pub(crate) struct Tickets;

impl TicketEtypes for Tickets {
    ghost etype = { IsEncodedEtypeText ⟦<Ticket as DerEncode>⟧.is_value ⟦<Ticket as DerEncode>⟧.enc (λ t. t.enc_part.etype) };

    fn text_of_ticket_etype(alloc: Global, octets: &[u8]) -> Result<Vec<u8>, AllocError> {
        match open::<Ticket>(alloc, octets)? {
            Some(ticket) => {
                let text = text_of_sealed_etype(alloc, &ticket);
                drop(ticket);
                text
            }
            None => unreadable(alloc),
        }
    }
}
