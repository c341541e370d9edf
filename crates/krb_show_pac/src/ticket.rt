//! What is told of the PAC of a ticket.

ghost use Rattle.std.specs.Prelude.{List, codes, OnOk};
ghost use Rattle.krb_show.specs.Pages.{◌then◌};
ghost use Rattle.krb_show.specs.Tokens.{Begins, Token, plain};
ghost use Rattle.krb_decrypt.specs.Keys.{NamedKey};
ghost use Rattle.krb_show_pac.specs.Checksums.{over};
ghost use Rattle.krb_show_pac.specs.Message.{IsTicketMessage, NoneHoldsPac};
ghost use Rattle.krb_show_pac.specs.Tickets.{ticket_checksums, ticket_told};
ghost use Rattle.krb_show_pac.specs.Told.{pac_checksums, under_keys};

use crate::checksum::ticket;
use crate::message::{Zeroed, zeroed_of};
use crate::pac_checksums::{tell_pac, words_of};
use crate::told::tell_under_keys;
use krb_decrypt::Key;
use krb_der::DerEncode;
use krb_enc_parts::data_types::EncTicketPart;
use krb_pac_signatures::PacSignatures;
use krb_show::{Label, Page};
use krb_types::data_types::AuthorizationData;
use std::alloc::{AllocError, Global};

/// A value of which something is told under keys.
pub(crate) trait Tells {
    /// What is told: the caller's own keys, the key that opened it, this value, the page before and the page after.
    ghost tells: { List NamedKey → NamedKey → Self → List Token → List Token → Type 0 };

    /// Appends what is told to the page.
    fn tell(&self, alloc: Global, own: &[Key], key: &Key, page: &mut Page) -> Result<(), AllocError>
        ensures ok { OnOk result (tells own.now key.now self.now page.old.items page.new.items) }
        ensures kept { OnOk result (Begins page.old.items page.new.items) };
}

/// Tells of the ticket's checksum of a PAC, over this message.
fn tell_signature(
    alloc: Global,
    own: &[Key],
    key: &Key,
    signatures: &PacSignatures,
    message: Vec<u8>,
    page: &mut Page,
) -> Result<(), AllocError>
    ensures ok { OnOk result (under_keys (plain (codes "ticket-checksum")) (plain (codes "ticket-checksum-key")) own.now key.now
        (over message.items signatures.now.ticket) page.old.items page.new.items) }
    ensures kept { OnOk result (Begins page.old.items page.new.items) }
{
    let checksum = ticket(signatures, message);
    let label = Label::new("ticket-checksum");
    let key_label = Label::new("ticket-checksum-key");
    tell_under_keys(alloc, &label, &key_label, own, key, &checksum, page)
}

/// Tells of the checksum of a ticket that a PAC holds, over this message.
fn tell_message(
    alloc: Global,
    own: &[Key],
    key: &Key,
    octets: &[u8],
    message: Vec<u8>,
    page: &mut Page,
) -> Result<(), AllocError>
    ensures ok { OnOk result (ticket_told own.now key.now octets.now message.items page.old.items page.new.items) }
    ensures kept { OnOk result (Begins page.old.items page.new.items) }
{
    match PacSignatures::new(octets) {
        Ok(signatures) => tell_signature(alloc, own, key, &signatures, message, page),
        Err(error) => match words_of(&error) {
            Some(_words) => Ok(()),
            None => Err(AllocError),
        },
    }
}

/// Tells of the checksums of a PAC, and of that of the ticket, over this message.
fn tell_first(
    alloc: Global,
    own: &[Key],
    key: &Key,
    octets: &[u8],
    message: Vec<u8>,
    page: &mut Page,
) -> Result<(), AllocError>
    ensures ok { OnOk result ((pac_checksums own.now key.now octets.now then ticket_told own.now key.now octets.now message.items) page.old.items page.new.items) }
    ensures kept { OnOk result (Begins page.old.items page.new.items) }
{
    tell_pac(alloc, own, key, octets, page)?;
    tell_message(alloc, own, key, octets, message, page)
}

/// Tells of the checksums of the first PAC of a ticket, and of the ticket's that it holds.
fn tell_ticket(
    alloc: Global,
    own: &[Key],
    key: &Key,
    ticket: &EncTicketPart,
    page: &mut Page,
) -> Result<(), AllocError>
    ensures ok { OnOk result (ticket_checksums ⟦<AuthorizationData as DerEncode>⟧.is_value ⟦<AuthorizationData as DerEncode>⟧.enc
        ⟦<EncTicketPart as DerEncode>⟧.enc own.now key.now ticket.now page.old.items page.new.items) }
    ensures kept { OnOk result (Begins page.old.items page.new.items) }
{
    let data = &ticket.0.authorization_data;
    let Some(elements) = &data.0 else {
        return Ok(());
    };
    match zeroed_of(alloc, ticket, &elements.0.0)? {
        Some(Zeroed { pac, octets }) => tell_first(alloc, own, key, &pac, octets, page),
        None => Ok(()),
    }
}

/// Of the first PAC in the authorization data of a ticket (RFC 4120, 5.3) it is told whether its checksums hold, and whether the ticket's does.
impl Tells for EncTicketPart {
    ghost tells = { λ own key v. ticket_checksums ⟦<AuthorizationData as DerEncode>⟧.is_value ⟦<AuthorizationData as DerEncode>⟧.enc
        ⟦<EncTicketPart as DerEncode>⟧.enc own key v };

    fn tell(
        &self,
        alloc: Global,
        own: &[Key],
        key: &Key,
        page: &mut Page,
    ) -> Result<(), AllocError> {
        tell_ticket(alloc, own, key, self, page)
    }
}
