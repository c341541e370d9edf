//! The small buffers: PAC_CLIENT_INFO (MS-PAC 2.7), UPN_DNS_INFO (2.10), PAC_ATTRIBUTES_INFO (2.14), PAC_REQUESTOR (2.15).

ghost use Rattle.std.specs.Option.{option_copied};
ghost use Rattle.krb_show_pac.specs.Small.{attributes_info_of, client_of, pac_requestor_of, sam_and_sid_of, upn_and_domain_of};

use crate::Pac;
use crate::flags::{FlagSet, Flags};
use crate::texts::Name;
use crate::times::Moment;
use krb_pac_contents::SidView;
use krb_pac_contents::buffers::{AttributesView, ClientInfoView, UpnDnsView};
use krb_show::{Field, Label, Page, Show, ShowFields, show_fields, show_struct};
use std::alloc::{AllocError, Global};
use std::marker::PhantomData;

/// The fields of PAC_CLIENT_INFO.
#[derive(Drop)]
struct ClientFields<'a> {
    client_id: Moment,
    name: Name<'a>,
}

/// The client's name and the time of its authentication (MS-PAC 2.7).
impl<'a> Show<Pac> for ClientInfoView<'a> {
    ghost shows = { client_of };

    fn show(&self, alloc: Global, label: &Label, page: &mut Page) -> Result<(), AllocError> {
        let fields = ClientFields {
            client_id: Moment {
                filetime: self.client_id(),
            },
            name: Name {
                octets: self.name(),
            },
        };
        show_struct(
            alloc,
            label,
            &show_fields!(Pac; fields; "ClientId" = client_id, "Name" = name),
            page,
        )
    }
}

/// The fields that UPN_DNS_INFO always has.
#[derive(Drop)]
struct UpnFields<'a> {
    upn: Name<'a>,
    dns_domain_name: Name<'a>,
    flags: Flags,
}

/// The fields that UPN_DNS_INFO has with flag S, lent for showing.
#[derive(Drop)]
struct SamAndSid<'s, 'a> {
    sam_name: Name<'a>,
    sid: Option<&'s SidView<'a>>,
}

impl<'s, 'a> ShowFields for SamAndSid<'s, 'a> {
    ghost shows = { λ f. sam_and_sid_of f.sam_name (option_copied f.sid) };

    fn show_fields(&self, alloc: Global, page: &mut Page) -> Result<(), AllocError> {
        match self.sid {
            Some(sid) => {
                let sid = Field {
                    label: Label::new("Sid"),
                    value: sid,
                    shown: PhantomData::<Pac>,
                };
                let fields = (show_fields!(Pac; self; "SamName" = sam_name), sid);
                fields.show_fields(alloc, page)
            }
            None => Ok(()),
        }
    }
}

/// The user's principal name and the domain's DNS name (MS-PAC 2.10).
impl<'a> Show<Pac> for UpnDnsView<'a> {
    ghost shows = { upn_and_domain_of };

    fn show(&self, alloc: Global, label: &Label, page: &mut Page) -> Result<(), AllocError> {
        let fields = UpnFields {
            upn: Name { octets: self.upn() },
            dns_domain_name: Name {
                octets: self.dns_domain_name(),
            },
            flags: Flags {
                set: FlagSet::UpnDnsFlags,
                number: self.flags(),
            },
        };
        let rest = SamAndSid {
            sam_name: Name {
                octets: self.sam_name(),
            },
            sid: self.sid(),
        };
        show_struct(
            alloc,
            label,
            &(
                show_fields!(Pac; fields; "Upn" = upn, "DnsDomainName" = dns_domain_name, "Flags" = flags),
                rest,
            ),
            page,
        )
    }
}

/// The fields of PAC_ATTRIBUTES_INFO.
#[derive(Drop)]
struct AttributesFields {
    flags_length: u32,
    flags: Flags,
}

/// Attributes of a PAC (MS-PAC 2.14).
impl<'a> Show<Pac> for AttributesView<'a> {
    ghost shows = { attributes_info_of };

    fn show(&self, alloc: Global, label: &Label, page: &mut Page) -> Result<(), AllocError> {
        let fields = AttributesFields {
            flags_length: self.flags_length(),
            flags: Flags {
                set: FlagSet::PacAttributes,
                number: self.flags(),
            },
        };
        show_struct(
            alloc,
            label,
            &show_fields!(Pac; fields; "FlagsLength" = flags_length, "Flags" = flags),
            page,
        )
    }
}

/// The client that asked for the ticket (MS-PAC 2.15).
#[derive(Drop)]
pub(crate) struct Requestor<'a> {
    pub(crate) user_sid: SidView<'a>,
}

impl<'a> Show<Pac> for Requestor<'a> {
    ghost shows = { λ label v. pac_requestor_of label v.user_sid };

    fn show(&self, alloc: Global, label: &Label, page: &mut Page) -> Result<(), AllocError> {
        show_struct(
            alloc,
            label,
            &show_fields!(Pac; self; "UserSid" = user_sid),
            page,
        )
    }
}
