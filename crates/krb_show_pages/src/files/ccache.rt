//! Credential caches (MIT Kerberos, "Credential cache file format").

ghost use Rattle.std.specs.Prelude.{◌≡◌, [], IfOk, IfErr, OnOk, OnErr, MatchResult, pos, codes};
ghost use Rattle.krb_files.specs.Ccache.{Ccache, CcacheIs, version_octet};
ghost use Rattle.krb_show.specs.Leaves.{number_of};
ghost use Rattle.krb_show.specs.Pages.{◌then◌, list_of, struct_of};
ghost use Rattle.krb_show.specs.Tokens.{Begins, plain};
ghost use Rattle.krb_show_messages.specs.Shown.{shows_of};
ghost use Rattle.krb_show_pages.specs.Files.{IsNoCcache, ccache_of, credential_of, marks_of, parties_of, removal_of, ticket_of, tickets_of, times_of};

use crate::files::error::FilePageError;
use crate::files::principal::PrincipalFields;
use crate::files::ticket::{Addresses, AuthorizationElements, Key, TicketFlags, TicketOctets};
use crate::files::values::{Items, KeyOctets, Seconds};
use crate::files::{File, HeaderField};
use krb_der::DerEncode;
use krb_files::ccache::{CcacheVersion, CcacheView, CredentialView, Times};
use krb_files::fields::TypedOctets;
use krb_show::{Field, Label, Page, Role, Show, ShowFields, show_fields, show_struct};
use krb_show_messages::HasRow;
use krb_types::data_types::Ticket;
use std::alloc::{AllocError, Global};
use std::marker::PhantomData;

/// Whether a credential was removed, lent for showing.
#[derive(Drop)]
struct Removal {
    is_removed: bool,
}

impl ShowFields for Removal {
    ghost shows = { λ f. removal_of f.is_removed };

    fn show_fields(&self, alloc: Global, page: &mut Page) -> Result<(), AllocError> {
        if self.is_removed {
            return Show::<File>::show(&true, alloc, &Label::new("removed"), page);
        }
        Ok(())
    }
}

/// The principals and the key of a credential, lent for showing.
#[derive(Drop)]
struct Parties<'a> {
    client: PrincipalFields<'a>,
    server: PrincipalFields<'a>,
    key: Key<'a>,
}

impl<'a> ShowFields for Parties<'a> {
    ghost shows = { λ f. parties_of f.client f.server f.key.keytype f.key.keyvalue };

    fn show_fields(&self, alloc: Global, page: &mut Page) -> Result<(), AllocError> {
        let fields = show_fields!(File; self; "client" = client, "server" = server, "key" = key);
        fields.show_fields(alloc, page)
    }
}

/// The times of a credential, lent for showing.
#[derive(Drop)]
struct TimesFields {
    authtime: Seconds,
    starttime: Seconds,
    endtime: Seconds,
    renew_till: Seconds,
}

/// The times of a credential, lent for showing.
fn times_fields(times: Times) -> TimesFields
    ensures authtime { result.authtime ≡ times.authtime }
    ensures starttime { result.starttime ≡ times.starttime }
    ensures endtime { result.endtime ≡ times.endtime }
    ensures renew_till { result.renew_till ≡ times.renew_till }
{
    TimesFields {
        authtime: Seconds {
            seconds: times.authtime,
        },
        starttime: Seconds {
            seconds: times.starttime,
        },
        endtime: Seconds {
            seconds: times.endtime,
        },
        renew_till: Seconds {
            seconds: times.renew_till,
        },
    }
}

impl ShowFields for TimesFields {
    ghost shows = { λ f. times_of f.authtime f.starttime f.endtime f.renew_till };

    fn show_fields(&self, alloc: Global, page: &mut Page) -> Result<(), AllocError> {
        let fields = show_fields!(
            File; self;
            "authtime" = authtime,
            "starttime" = starttime,
            "endtime" = endtime,
            "renew-till" = renew_till
        );
        fields.show_fields(alloc, page)
    }
}

/// What a credential says of its ticket, lent for showing.
#[derive(Drop)]
struct Marks<'a> {
    is_skey: u32,
    flags: TicketFlags,
    addresses: Addresses<'a>,
    authdata: AuthorizationElements<'a>,
}

impl<'a> ShowFields for Marks<'a> {
    ghost shows = { λ f. marks_of f.is_skey f.flags.flags f.addresses.list f.authdata.list };

    fn show_fields(&self, alloc: Global, page: &mut Page) -> Result<(), AllocError> {
        let fields = show_fields!(
            File; self;
            "is-skey" = is_skey,
            "ticket-flags" TicketFlag = flags,
            "addresses" = addresses,
            "authdata" = authdata
        );
        fields.show_fields(alloc, page)
    }
}

/// The tickets of a credential, lent for showing.
#[derive(Drop)]
struct Tickets<'a> {
    ticket: &'a [u8],
    second_ticket: &'a [u8],
}

impl<'a> ShowFields for Tickets<'a> {
    ghost shows = { λ f. tickets_of (ticket_of ⟦<Ticket as DerEncode>⟧.is_value ⟦<Ticket as DerEncode>⟧.enc (shows_of ⟦<Ticket as HasRow>⟧.row_name ⟦<Ticket as DerEncode>⟧.enc))
        f.ticket.now f.second_ticket.now };

    fn show_fields(&self, alloc: Global, page: &mut Page) -> Result<(), AllocError> {
        let ticket = TicketOctets {
            text: "ticket",
            octets: self.ticket,
        };
        let second_ticket = TicketOctets {
            text: "second-ticket",
            octets: self.second_ticket,
        };
        (ticket, second_ticket).show_fields(alloc, page)
    }
}

/// A credential.
impl<'a> Show<File> for CredentialView<'a> {
    ghost shows = { credential_of (ticket_of ⟦<Ticket as DerEncode>⟧.is_value ⟦<Ticket as DerEncode>⟧.enc (shows_of ⟦<Ticket as HasRow>⟧.row_name ⟦<Ticket as DerEncode>⟧.enc)) };

    fn show(&self, alloc: Global, label: &Label, page: &mut Page) -> Result<(), AllocError> {
        let removal = Removal {
            is_removed: self.is_removed(),
        };
        let parties = Parties {
            client: PrincipalFields::new(self.client()),
            server: PrincipalFields::new(self.server()),
            key: Key {
                keytype: u32::from(self.etype()),
                keyvalue: KeyOctets { octets: self.key() },
            },
        };
        let times = times_fields(self.times());
        let marks = Marks {
            is_skey: u32::from(self.is_skey()),
            flags: TicketFlags {
                flags: self.flags(),
            },
            addresses: Addresses {
                list: self.addresses(),
            },
            authdata: AuthorizationElements {
                list: self.authorization_data(),
            },
        };
        let tickets = Tickets {
            ticket: self.ticket(),
            second_ticket: self.second_ticket(),
        };
        show_struct(
            alloc,
            label,
            &((((removal, parties), times), marks), tickets),
            page,
        )
    }
}

/// The number of a version.
fn version_number(version: CcacheVersion) -> u32
    ensures { result ≡ version_octet version }
{
    match version {
        CcacheVersion::Three => 3,
        CcacheVersion::Four => 4,
    }
}

/// The fields of a header, in their order.
fn header_of<'a>(alloc: Global, cache: &CcacheView<'a>) -> Result<Vec<TypedOctets<'a>>, AllocError>
    ensures { IfOk result (λ v. v.items ≡ cache.now.header) }
{
    cache.header().collect(alloc)
}

/// The credentials, in their order.
fn credentials_of<'a>(
    alloc: Global,
    cache: &CcacheView<'a>,
) -> Result<Vec<CredentialView<'a>>, AllocError>
    ensures { IfOk result (λ v. v.items ≡ cache.now.credentials) }
{
    cache.credentials().collect(alloc)
}

/// Appends the tokens of a cache of these parts.
fn show_parts<'a, H: Show<HeaderField>, P: Show<File>, C: Show<File>>(
    alloc: Global,
    label: &Label,
    version: &'a u32,
    header: &'a [H],
    principal: &'a P,
    credentials: &'a [C],
    page: &mut Page,
) -> Result<(), AllocError>
    ensures ok { OnOk result (struct_of label.now (
        number_of (plain (codes "version")) (pos version.now)
        then list_of (λ l. H.shows l) (plain (codes "header")) header.now
        then P.shows (plain (codes "principal")) principal.now
        then list_of (λ l. C.shows l) (plain (codes "credentials")) credentials.now) page.old.items page.new.items) }
    ensures kept { OnOk result (Begins page.old.items page.new.items) }
    ensures err { OnErr result (page.new.items ≡ page.old.items) }
{
    let version = Field {
        label: Label {
            text: "version",
            kind: None,
            role: Role::None,
            is_item: false,
        },
        value: version,
        shown: PhantomData::<File>,
    };
    let header = Items {
        label: Label {
            text: "header",
            kind: None,
            role: Role::None,
            is_item: false,
        },
        items: header,
        shown: PhantomData::<HeaderField>,
    };
    let principal = Field {
        label: Label {
            text: "principal",
            kind: None,
            role: Role::None,
            is_item: false,
        },
        value: principal,
        shown: PhantomData::<File>,
    };
    let credentials = Items {
        label: Label {
            text: "credentials",
            kind: None,
            role: Role::None,
            is_item: false,
        },
        items: credentials,
        shown: PhantomData::<File>,
    };
    show_struct(
        alloc,
        label,
        &(((version, header), principal), credentials),
        page,
    )
}

/// A cache.
impl<'a> Show<File> for CcacheView<'a> {
    ghost shows = { ccache_of (ticket_of ⟦<Ticket as DerEncode>⟧.is_value ⟦<Ticket as DerEncode>⟧.enc (shows_of ⟦<Ticket as HasRow>⟧.row_name ⟦<Ticket as DerEncode>⟧.enc)) };

    fn show(&self, alloc: Global, label: &Label, page: &mut Page) -> Result<(), AllocError> {
        let version = version_number(self.version());
        let header = header_of(alloc, self)?;
        let principal = PrincipalFields::new(self.principal());
        let credentials = credentials_of(alloc, self)?;
        show_parts(
            alloc,
            label,
            &version,
            &header,
            &principal,
            &credentials,
            page,
        )
    }
}

/// The page of the credential cache of version 3 or 4 that all of the octets are (MIT Kerberos,
/// "Credential cache file format"), under the name `ccache`: the version, the fields of the header,
/// each with its tag, the default principal and the credentials, in their order. A configuration entry
/// is one of the credentials, and shown as they are. So is one that was removed and only stands in the
/// file (`CredentialView::is_removed`), and it says `removed` first. In the place of a ticket a Ticket
/// (RFC 4120, 5.3) is opened, and other octets, as a configuration entry has, are a secret. A time that a credential has not is
/// the number 0, which is shown as the time that it stands for, 1970-01-01T00:00:00Z.
///
/// Every octet of the cache has its line, but for those that count or repeat: lengths, counts, and the second encryption type of version 3. Other
/// octets are refused with their first error, as by `CcacheView::new`. An allocation failure is `OutOfMemory`, and comes only where they are a cache.
pub fn page_of_ccache(alloc: Global, octets: &[u8]) -> Result<Page, FilePageError>
    ensures found { IfOk result (λ page. (cache : Ccache) × CcacheIs octets.now cache
        × ccache_of (ticket_of ⟦<Ticket as DerEncode>⟧.is_value ⟦<Ticket as DerEncode>⟧.enc (shows_of ⟦<Ticket as HasRow>⟧.row_name ⟦<Ticket as DerEncode>⟧.enc))
        (plain (codes "ccache")) cache [] page.items) }
    ensures reads { (cache : Ccache) → CcacheIs octets.now cache → MatchResult result (λ page. Unit {0}) (λ e. e ≡ FilePageError.OutOfMemory) }
    ensures rejected { IfErr result (IsNoCcache octets.now) }
{
    let cache = CcacheView::new(octets)?;
    let label = Label::new("ccache");
    let mut page = Vec::new(alloc);
    Show::<File>::show(&cache, alloc, &label, &mut page)?;
    Ok(page)
}
