//! What is told behind a decrypted ticket.

ghost use Rattle.std.specs.Prelude.{◌≡◌, OnOk};
ghost use Rattle.krb_show.specs.Tokens.{Begins};
ghost use Rattle.krb_show_pac.specs.Checked.{if_ticket, tells_behind, tells_of};

use crate::ticket::Tells;
use krb_decrypt::{Key, TellsBehind, Usage};
use krb_der::{Der, DerEncode};
use krb_enc_parts::data_types::EncTicketPart;
use krb_show::{Page, open};
use std::alloc::{AllocError, Global};
use std::marker::Model;

/// What tells behind each ticket that a key decrypts what is known of the checksums of its PAC. As a value it is the caller's own keys.
#[derive(Drop)]
pub struct Checksums {
    own: Vec<Key>,
}

impl Model for Checksums {
    ghost use Rattle.std.specs.Prelude.{List};
    ghost use Rattle.krb_decrypt.specs.Keys.{NamedKey};

    ghost Value = { List NamedKey };

    ghost view = { λ c. c.own.items };
}

impl Checksums {
    /// For a caller whose own keys these are: under them alone a checksum holds.
    pub fn new(own: Vec<Key>) -> Checksums
        ensures { result ≡ own.items }
    {
        Checksums { own }
    }

    /// The caller's own keys.
    fn own(&self) -> &[Key]
        ensures { result.now ≡ self.now }
    {
        &self.own
    }
}

/// Tells of the value whose encoding these octets are.
fn tell_value<T: Der + Tells + Drop>(
    alloc: Global,
    own: &[Key],
    key: &Key,
    octets: &[u8],
    page: &mut Page,
) -> Result<(), AllocError>
    ensures ok { OnOk result (tells_of T.is_value T.enc T.tells own.now key.now octets.now page.old.items page.new.items) }
    ensures kept { OnOk result (Begins page.old.items page.new.items) }
{
    match open::<T>(alloc, octets)? {
        Some(value) => value.tell(alloc, own, key, page),
        None => Ok(()),
    }
}

/// Tells of it, where the usage is that of a ticket.
fn tell_if_ticket<T: Der + Tells + Drop>(
    alloc: Global,
    own: &[Key],
    key: &Key,
    usage: Usage,
    octets: &[u8],
    page: &mut Page,
) -> Result<(), AllocError>
    ensures ok { OnOk result (if_ticket usage (tells_of T.is_value T.enc T.tells own.now key.now octets.now) page.old.items page.new.items) }
    ensures kept { OnOk result (Begins page.old.items page.new.items) }
{
    match usage {
        Usage::Ticket => tell_value::<T>(alloc, own, key, octets, page),
        _ => Ok(()),
    }
}

/// The same, under the keys of `checksums`.
fn tell_checksums<T: Der + Tells + Drop>(
    alloc: Global,
    checksums: &Checksums,
    key: &Key,
    usage: Usage,
    octets: &[u8],
    page: &mut Page,
) -> Result<(), AllocError>
    ensures ok { OnOk result (tells_behind T.is_value T.enc T.tells checksums.now key.now usage octets.now page.old.items page.new.items) }
    ensures kept { OnOk result (Begins page.old.items page.new.items) }
{
    tell_if_ticket::<T>(alloc, checksums.own(), key, usage, octets, page)
}

impl TellsBehind for Checksums {
    ghost tells = { tells_behind ⟦<EncTicketPart as DerEncode>⟧.is_value ⟦<EncTicketPart as DerEncode>⟧.enc ⟦<EncTicketPart as Tells>⟧.tells };

    fn tell(
        &self,
        alloc: Global,
        key: &Key,
        usage: Usage,
        octets: &[u8],
        page: &mut Page,
    ) -> Result<(), AllocError> {
        tell_checksums::<EncTicketPart>(alloc, self, key, usage, octets, page)
    }
}
