//! The contents of a buffer, by its type.

ghost use Rattle.std.specs.Prelude.{◌≡◌, OnOk, OnErr};
ghost use Rattle.krb_show.specs.Tokens.{Begins};
ghost use Rattle.krb_show_pac.specs.Contents.{attributes_contents, client_contents, contents_in, contents_of, logon_contents, requestor_contents, signature_contents, upn_contents};

use crate::Pac;
use crate::small::Requestor;
use crate::unread::{buffer_words, logon_words, show_unread};
use krb_pac::PacBufferType;
use krb_pac_contents::LogonView;
use krb_pac_contents::buffers::{AttributesView, ClientInfoView, UpnDnsView, requestor};
use krb_pac_signatures::SignatureView;
use krb_show::{Label, Page, Show};
use std::alloc::{AllocError, Global};

/// Appends what KERB_VALIDATION_INFO holds.
fn show_logon(alloc: Global, octets: &[u8], page: &mut Page) -> Result<(), AllocError>
    ensures ok { OnOk result (logon_contents octets.now page.old.items page.new.items) }
    ensures kept { OnOk result (Begins page.old.items page.new.items) }
    ensures err { OnErr result (page.new.items ≡ page.old.items) }
{
    match LogonView::new(octets) {
        Ok(view) => Show::<Pac>::show(&view, alloc, &Label::new("KERB_VALIDATION_INFO"), page),
        Err(error) => show_unread(alloc, logon_words(error), page),
    }
}

/// Appends what PAC_CLIENT_INFO holds.
fn show_client(alloc: Global, octets: &[u8], page: &mut Page) -> Result<(), AllocError>
    ensures ok { OnOk result (client_contents octets.now page.old.items page.new.items) }
    ensures kept { OnOk result (Begins page.old.items page.new.items) }
    ensures err { OnErr result (page.new.items ≡ page.old.items) }
{
    match ClientInfoView::new(octets) {
        Ok(view) => Show::<Pac>::show(&view, alloc, &Label::new("PAC_CLIENT_INFO"), page),
        Err(error) => show_unread(alloc, buffer_words(error), page),
    }
}

/// Appends what UPN_DNS_INFO holds.
fn show_upn(alloc: Global, octets: &[u8], page: &mut Page) -> Result<(), AllocError>
    ensures ok { OnOk result (upn_contents octets.now page.old.items page.new.items) }
    ensures kept { OnOk result (Begins page.old.items page.new.items) }
    ensures err { OnErr result (page.new.items ≡ page.old.items) }
{
    match UpnDnsView::new(octets) {
        Ok(view) => Show::<Pac>::show(&view, alloc, &Label::new("UPN_DNS_INFO"), page),
        Err(error) => show_unread(alloc, buffer_words(error), page),
    }
}

/// Appends what PAC_ATTRIBUTES_INFO holds.
fn show_attributes(alloc: Global, octets: &[u8], page: &mut Page) -> Result<(), AllocError>
    ensures ok { OnOk result (attributes_contents octets.now page.old.items page.new.items) }
    ensures kept { OnOk result (Begins page.old.items page.new.items) }
    ensures err { OnErr result (page.new.items ≡ page.old.items) }
{
    match AttributesView::new(octets) {
        Ok(view) => Show::<Pac>::show(&view, alloc, &Label::new("PAC_ATTRIBUTES_INFO"), page),
        Err(error) => show_unread(alloc, buffer_words(error), page),
    }
}

/// Appends what PAC_REQUESTOR holds.
fn show_requestor(alloc: Global, octets: &[u8], page: &mut Page) -> Result<(), AllocError>
    ensures ok { OnOk result (requestor_contents octets.now page.old.items page.new.items) }
    ensures kept { OnOk result (Begins page.old.items page.new.items) }
    ensures err { OnErr result (page.new.items ≡ page.old.items) }
{
    match requestor(octets) {
        Ok(user_sid) => {
            let view = Requestor { user_sid };
            Show::<Pac>::show(&view, alloc, &Label::new("PAC_REQUESTOR"), page)
        }
        Err(error) => show_unread(alloc, buffer_words(error), page),
    }
}

/// Appends what PAC_SIGNATURE_DATA holds.
fn show_signature(alloc: Global, octets: &[u8], page: &mut Page) -> Result<(), AllocError>
    ensures ok { OnOk result (signature_contents octets.now page.old.items page.new.items) }
    ensures kept { OnOk result (Begins page.old.items page.new.items) }
    ensures err { OnErr result (page.new.items ≡ page.old.items) }
{
    match SignatureView::new(octets) {
        Ok(view) => Show::<Pac>::show(&view, alloc, &Label::new("PAC_SIGNATURE_DATA"), page),
        Err(_) => show_unread(alloc, "the octets end too early", page),
    }
}

/// Appends what a buffer of this type holds.
fn show_known(
    alloc: Global,
    kind: PacBufferType,
    octets: &[u8],
    page: &mut Page,
) -> Result<(), AllocError>
    ensures ok { OnOk result (contents_in kind octets.now page.old.items page.new.items) }
    ensures kept { OnOk result (Begins page.old.items page.new.items) }
    ensures err { OnErr result (page.new.items ≡ page.old.items) }
{
    match kind {
        PacBufferType::KerbValidationInfo => show_logon(alloc, octets, page),
        PacBufferType::ServerChecksum
        | PacBufferType::KdcChecksum
        | PacBufferType::TicketChecksum
        | PacBufferType::FullPacChecksum => show_signature(alloc, octets, page),
        PacBufferType::ClientInfo => show_client(alloc, octets, page),
        PacBufferType::UpnDnsInfo => show_upn(alloc, octets, page),
        PacBufferType::PacAttributesInfo => show_attributes(alloc, octets, page),
        PacBufferType::PacRequestor => show_requestor(alloc, octets, page),
        PacBufferType::Credentials
        | PacBufferType::ConstrainedDelegationInformation
        | PacBufferType::ClientClaimsInfo
        | PacBufferType::DeviceInfo
        | PacBufferType::DeviceClaimsInfo => Ok(()),
    }
}

/// Appends what a buffer of a PAC holds, in words: the number of its type (MS-PAC 2.4, ulType), and its octets.
///
/// One struct under the name of the standard's structure: KERB_VALIDATION_INFO (1; MS-PAC 2.5), PAC_CLIENT_INFO (10; 2.7), UPN_DNS_INFO (12;
/// 2.10), PAC_ATTRIBUTES_INFO (17; 2.14), PAC_REQUESTOR (18; 2.15), PAC_SIGNATURE_DATA (6, 7, 16, 19; 2.8). Octets that are none are said by one
/// text `unread`, with what is wrong. Buffers of other types add nothing. The only error is an allocation failure, after which the page is as
/// before.
pub fn show_contents(
    alloc: Global,
    ul_type: u32,
    octets: &[u8],
    page: &mut Page,
) -> Result<(), AllocError>
    ensures ok { OnOk result (contents_of ul_type octets.now page.old.items page.new.items) }
    ensures kept { OnOk result (Begins page.old.items page.new.items) }
    ensures err { OnErr result (page.new.items ≡ page.old.items) }
{
    match PacBufferType::try_from(ul_type) {
        Ok(kind) => show_known(alloc, kind, octets, page),
        Err(_) => Ok(()),
    }
}
