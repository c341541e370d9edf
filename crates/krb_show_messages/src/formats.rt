//! Formats that are no DER within messages of Kerberos.

ghost use Rattle.std.specs.Prelude.{◌≡◌, IfOk, OnErr, OnOk};
ghost use Rattle.krb_show.specs.Leaves.{octets_of};
ghost use Rattle.krb_show.specs.Tokens.{Begins};
ghost use Rattle.krb_show_messages.specs.Pac.{pac_of};
ghost use Rattle.krb_show_messages.specs.Formats.{behind_number, deleg_of, formats_of, gss_checksum, win2k_pac};
ghost use Rattle.krb_show_messages.specs.GssChecksum.{gss_checksum_of};
ghost use Rattle.krb_show_messages.specs.Places.{behind_number_places, formats_places, gss_checksum_places, pac_places};

use crate::gss_checksum::{places_of_gss_checksum, show_gss_checksum};
use crate::pac::{places_of_pac, show_pac};
use crate::places::places_of_octets;
use crate::prefixed::{places_of_prefixed, show_prefixed};
use krb_schema::Role;
use krb_show::{Label, Page, Place, ShowsFormats, show_octets};
use std::alloc::{AllocError, Global};

/// The content of the INTEGER 128 (X.690, 8.3), the type AD-WIN2K-PAC (RFC 4120, 7.5.4).
const WIN2K_PAC: [u8; 2] = [0x00, 0x80];

/// The content of the INTEGER 0x8003 (X.690, 8.3), the type of the checksum of the GSS-API (RFC 4121, 4.1.1).
const GSS_CHECKSUM: [u8; 3] = [0x00, 0x80, 0x03];

/// Appends the data of an element of authorization data behind its type (RFC 4120, 5.2.6): a PAC (MS-PAC, 2.3) behind 128.
fn show_data(
    alloc: Global,
    number: &[u8],
    label: &Label,
    octets: &[u8],
    page: &mut Page,
) -> Result<(), AllocError>
    ensures ok { OnOk result (behind_number win2k_pac number.now (pac_of label.now octets.now) (octets_of label.now octets.now) page.old.items page.new.items) }
    ensures kept { OnOk result (Begins page.old.items page.new.items) }
    ensures err { OnErr result (page.new.items ≡ page.old.items) }
{
    if number == WIN2K_PAC.as_slice() {
        return show_pac(alloc, label, octets, page);
    }
    show_octets(alloc, label, octets, page)
}

/// Appends the octets of a checksum behind its type (RFC 4120, 5.2.9): that of the GSS-API in an authenticator behind 0x8003 (RFC 4121, 4.1.1).
fn show_checksum(
    alloc: Global,
    number: &[u8],
    label: &Label,
    octets: &[u8],
    page: &mut Page,
) -> Result<(), AllocError>
    ensures ok { OnOk result (behind_number gss_checksum number.now (gss_checksum_of deleg_of label.now octets.now) (octets_of label.now octets.now)
        page.old.items page.new.items) }
    ensures kept { OnOk result (Begins page.old.items page.new.items) }
    ensures err { OnErr result (page.new.items ≡ page.old.items) }
{
    if number == GSS_CHECKSUM.as_slice() {
        return show_gss_checksum(alloc, label, octets, page);
    }
    show_octets(alloc, label, octets, page)
}

/// The places of the data of an element of authorization data behind its type.
fn places_of_data(
    alloc: Global,
    number: &[u8],
    octets: &[u8],
) -> Result<Vec<Option<Place>>, AllocError>
    ensures { IfOk result (λ places. behind_number_places win2k_pac number.now octets.now (pac_places octets.now) places.items) }
{
    if number == WIN2K_PAC.as_slice() {
        return places_of_pac(alloc, octets);
    }
    places_of_octets(alloc, octets)
}

/// The places of the octets of a checksum behind its type.
fn places_of_checksum(
    alloc: Global,
    number: &[u8],
    octets: &[u8],
) -> Result<Vec<Option<Place>>, AllocError>
    ensures { IfOk result (λ places. behind_number_places gss_checksum number.now octets.now (gss_checksum_places octets.now) places.items) }
{
    if number == GSS_CHECKSUM.as_slice() {
        return places_of_gss_checksum(alloc, octets);
    }
    places_of_octets(alloc, octets)
}

/// Formats within messages of Kerberos: a PAC in authorization data of type 128 (MS-PAC, 2.3), the checksum of the GSS-API in an authenticator
/// (0x8003; RFC 4121, 4.1.1), and in a KDC-PROXY-MESSAGE a message of a KDC or to it behind its length (MS-KKDCP, 2.2.2). Other octets are octets.
#[derive(Drop)]
pub struct KerberosFormats;

impl ShowsFormats for KerberosFormats {
    ghost tells = { formats_of };

    ghost places = { formats_places };

    fn show_format(
        alloc: Global,
        role: Role,
        number: &[u8],
        label: &Label,
        octets: &[u8],
        page: &mut Page,
    ) -> Result<(), AllocError> {
        match role {
            Role::AuthorizationData => show_data(alloc, number, label, octets, page),
            Role::Checksum => show_checksum(alloc, number, label, octets, page),
            Role::PrefixedMessage => show_prefixed(alloc, label, octets, page),
            _ => show_octets(alloc, label, octets, page),
        }
    }

    fn places_of_format(
        alloc: Global,
        role: Role,
        number: &[u8],
        octets: &[u8],
    ) -> Result<Vec<Option<Place>>, AllocError> {
        match role {
            Role::AuthorizationData => places_of_data(alloc, number, octets),
            Role::Checksum => places_of_checksum(alloc, number, octets),
            Role::PrefixedMessage => places_of_prefixed(alloc, octets),
            _ => places_of_octets(alloc, octets),
        }
    }
}
