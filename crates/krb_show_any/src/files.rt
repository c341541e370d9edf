//! The files of MIT Kerberos: keytabs ("Keytab file format") and credential caches ("Credential cache file format").

ghost use Rattle.krb_show_any.specs.Told.{IsCcacheTold, IsKeytabTold};
ghost use Rattle.krb_show_pages.specs.Files.{ticket_of};
ghost use Rattle.krb_show_messages.specs.Shown.{shows_of};

use crate::pages::Pages;
use krb_der::DerEncode;
use krb_show::Page;
use krb_show_messages::HasRow;
use krb_show_pages::{FilePageError, page_of_ccache, page_of_keytab};
use krb_types::data_types::Ticket;
use std::alloc::Global;

/// Keytabs of version 2 (MIT Kerberos, "Keytab file format").
#[derive(Drop)]
pub struct Keytabs;

impl Pages<(), FilePageError> for Keytabs {
    ghost tells = { λ _ octets result. IsKeytabTold octets result };

    fn page_of(alloc: Global, _kind: (), octets: &[u8]) -> Result<Page, FilePageError> {
        page_of_keytab(alloc, octets)
    }
}

/// Credential caches of versions 3 and 4 (MIT Kerberos, "Credential cache file format").
#[derive(Drop)]
pub struct Ccaches;

impl Pages<(), FilePageError> for Ccaches {
    ghost tells = { λ _ octets result. IsCcacheTold
        (ticket_of ⟦<Ticket as DerEncode>⟧.is_value ⟦<Ticket as DerEncode>⟧.enc (shows_of ⟦<Ticket as HasRow>⟧.row_name ⟦<Ticket as DerEncode>⟧.enc)) octets result };

    fn page_of(alloc: Global, _kind: (), octets: &[u8]) -> Result<Page, FilePageError> {
        page_of_ccache(alloc, octets)
    }
}
