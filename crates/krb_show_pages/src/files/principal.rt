//! Principals of a credential cache (MIT Kerberos, "Credential cache file format", "Principal format").

ghost use Rattle.std.specs.Prelude.{◌≡◌};
ghost use Rattle.krb_show_pages.specs.Files.{principal_of};

use crate::files::File;
use crate::files::values::Realm;
use krb_files::ccache::CcachePrincipalView;
use krb_files::fields::ComponentsView;
use krb_show::{Label, Page, Show, show_fields, show_struct};
use std::alloc::{AllocError, Global};
use std::marker::Model;

/// The fields of a principal.
#[derive(Drop)]
pub(crate) struct PrincipalFields<'a> {
    name_type: u32,
    realm: Realm<'a>,
    components: ComponentsView<'a>,
}

impl<'a> Model for PrincipalFields<'a> {
    ghost use Rattle.krb_files.specs.Ccache.{TypedPrincipal};

    ghost Value = { TypedPrincipal };

    ghost view = { λ p. record { name_type = p.name_type; principal = record { realm = p.realm; components = p.components } } };
}

impl<'a> PrincipalFields<'a> {
    /// The fields of this principal.
    pub(crate) fn new(principal: &CcachePrincipalView<'a>) -> Self
        ensures { result ≡ principal.now }
    {
        PrincipalFields {
            name_type: principal.name_type(),
            realm: Realm {
                octets: principal.realm(),
            },
            components: principal.components(),
        }
    }
}

impl<'a> Show<File> for PrincipalFields<'a> {
    ghost shows = { principal_of };

    fn show(&self, alloc: Global, label: &Label, page: &mut Page) -> Result<(), AllocError> {
        show_struct(
            alloc,
            label,
            &show_fields!(
                File; self;
                "name-type" NameType = name_type,
                "realm" = realm,
                "components" = components
            ),
            page,
        )
    }
}
