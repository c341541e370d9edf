//! Credential caches (MIT Kerberos, "Credential cache file format").

ghost use Rattle.std.specs.Prelude.{◌≡◌, List, [], ◌∷◌, ◌++◌, ℕ, IfOk, IfErr, OnOk, MatchResult, codes};
ghost use Rattle.krb_files.specs.Ccache.{Ccache, CcacheIs};
ghost use Rattle.krb_file_tools.specs.Lines.{IsAddedPart, IsCcacheListing, IsCredentialLine, IsEtypePart, IsListing, IsNoCcache, IsRenewPart, IsTicketPart};
ghost use Rattle.krb_file_tools.specs.Lines.{ccache_header, client_part, flags_part, start_of};
ghost use Rattle.krb_file_tools.specs.Principals.{principal_text};
ghost use Rattle.krb_file_tools.specs.Texts.{IsEncodedEtypeText, flag_letters};
ghost use Rattle.krb_file_tools.specs.Tickets.{tickets_of};
ghost use Rattle.krb_show_text.specs.Text.{ArePrintable, text_of_lines};

use crate::list::error::ListError;
use crate::list::etype::{TicketEtypes, Tickets, text_of_etype};
use crate::list::flags::letters_of;
use crate::list::lines::{behind, joined, push_line};
use crate::list::principal::text_of_principal;
use crate::list::time::text_of_seconds;
use crate::tickets::is_ticket;
use krb_der::DerEncode;
use krb_files::ccache::{CcacheView, CredentialView, CredentialsView, Times};
use krb_files::fields::PrincipalView;
use krb_types::data_types::Ticket;
use std::alloc::{AllocError, Global};

/// The header.
const HEADER: &[u8] = b"Valid starting        Expires               Service principal";

/// When a ticket's time starts: at its authtime where it has no start.
fn start_of(times: &Times) -> u32
    ensures { result ≡ start_of times.now }
{
    if times.starttime == 0 {
        times.authtime
    } else {
        times.starttime
    }
}

/// The client of a ticket, where its text is not this one.
fn client_part(alloc: Global, own: &[u8], client: &PrincipalView) -> Result<Vec<u8>, AllocError>
    ensures part { IfOk result (λ part. part.items ≡ client_part own.now (principal_text client.now)) }
    ensures printable { IfOk result (λ part. ArePrintable part.items) }
{
    let text = text_of_principal(alloc, client)?;
    if text.as_slice() == own {
        return Ok(Vec::new(alloc));
    }
    let part = behind(alloc, b"  for client ", &text)?;
    Ok(part)
}

/// Until when a ticket may be renewed, where it may.
fn renew_part(alloc: Global, renew_till: u32) -> Result<Vec<u8>, AllocError>
    ensures part { IfOk result (λ part. IsRenewPart renew_till part.items) }
    ensures printable { IfOk result (λ part. ArePrintable part.items) }
{
    if renew_till == 0 {
        return Ok(Vec::new(alloc));
    }
    let time = text_of_seconds(alloc, renew_till)?;
    let part = behind(alloc, b"  renew until ", &time)?;
    Ok(part)
}

/// The letters of the flags that are set, where any is.
fn flags_part(alloc: Global, flags: u32) -> Result<Vec<u8>, AllocError>
    ensures part { IfOk result (λ part. part.items ≡ flags_part (flag_letters flags)) }
    ensures printable { IfOk result (λ part. ArePrintable part.items) }
{
    let letters = letters_of(alloc, flags)?;
    if letters.is_empty() {
        return Ok(letters);
    }
    let part = behind(alloc, b"  Flags: ", &letters)?;
    Ok(part)
}

/// The encryption types of the session key and of the ticket.
fn etype_part<T: TicketEtypes>(
    alloc: Global,
    credential: &CredentialView,
) -> Result<Vec<u8>, AllocError>
    ensures part { IfOk result (λ part. IsEtypePart T.etype credential.now part.items) }
    ensures printable { IfOk result (λ part. ArePrintable part.items) }
{
    let session = text_of_etype(alloc, i64::from(credential.etype()))?;
    let sealed = T::text_of_ticket_etype(alloc, credential.ticket())?;
    let pieces = [
        b"  Etype (skey, tkt): ",
        session.as_slice(),
        b", ",
        sealed.as_slice(),
    ];
    let part = joined(alloc, &pieces)?;
    Ok(part)
}

/// The start, the end and the server of a ticket.
fn ticket_part(alloc: Global, credential: &CredentialView) -> Result<Vec<u8>, AllocError>
    ensures part { IfOk result (λ part. IsTicketPart credential.now part.items) }
    ensures printable { IfOk result (λ part. ArePrintable part.items) }
{
    let times = credential.times();
    let start = text_of_seconds(alloc, start_of(&times))?;
    let expiry = text_of_seconds(alloc, times.endtime)?;
    let server = text_of_principal(alloc, credential.server().principal())?;
    let pieces = [
        start.as_slice(),
        b"  ",
        expiry.as_slice(),
        b"  ",
        server.as_slice(),
    ];
    let part = joined(alloc, &pieces)?;
    Ok(part)
}

/// What a line has behind the server: the client, the time of renewal, the flags and the encryption types.
fn added_part<T: TicketEtypes>(
    alloc: Global,
    own: &[u8],
    credential: &CredentialView,
) -> Result<Vec<u8>, AllocError>
    ensures part { IfOk result (λ part. IsAddedPart T.etype own.now credential.now part.items) }
    ensures printable { IfOk result (λ part. ArePrintable part.items) }
{
    let client = client_part(alloc, own, credential.client().principal())?;
    let renewal = renew_part(alloc, credential.times().renew_till)?;
    let flags = flags_part(alloc, credential.flags())?;
    let etypes = etype_part::<T>(alloc, credential)?;
    let pieces = [
        client.as_slice(),
        renewal.as_slice(),
        flags.as_slice(),
        etypes.as_slice(),
    ];
    let part = joined(alloc, &pieces)?;
    Ok(part)
}

/// The line of a credential in a cache whose default principal has this text.
fn line_of_credential<T: TicketEtypes>(
    alloc: Global,
    own: &[u8],
    credential: &CredentialView,
) -> Result<Vec<u8>, AllocError>
    ensures line { IfOk result (λ line. IsCredentialLine T.etype own.now credential.now line.items) }
    ensures printable { IfOk result (λ line. ArePrintable line.items) }
{
    let ticket = ticket_part(alloc, credential)?;
    let added = added_part::<T>(alloc, own, credential)?;
    let line = behind(alloc, &ticket, &added)?;
    Ok(line)
}

/// The line of the default principal, whose text this is.
fn default_line(alloc: Global, own: &[u8]) -> Result<Vec<u8>, AllocError>
    ensures { IfOk result (λ line. line.items ≡ codes "Default principal: " ++ own.now) }
{
    behind(alloc, b"Default principal: ", own)
}

/// A text of two lines.
fn text_of_heads(alloc: Global, first: &[u8], second: &[u8]) -> Result<Vec<u8>, AllocError>
    ensures { IfOk result (λ text. text.items ≡ text_of_lines (first.now ∷ second.now ∷ [])) }
{
    let mut text = Vec::new(alloc);
    push_line(&mut text, first)?;
    push_line(&mut text, second)?;
    Ok(text)
}

/// Appends a line for each ticket, to a text of lines.
fn push_tickets<T: TicketEtypes>(
    alloc: Global,
    own: &[u8],
    credentials: CredentialsView,
    text: &mut Vec<u8>,
) -> Result<(), AllocError>
    ensures { OnOk result ((heads : List (List ℕ)) → IsListing heads (IsCredentialLine T.etype own.now) [] text.old.items
        → IsListing heads (IsCredentialLine T.etype own.now) (tickets_of credentials.entry) text.new.items) }
{
    'credentials: for credential in credentials {
        if is_ticket(&credential) {
            let line = line_of_credential::<T>(alloc, own, &credential)?;
            push_line(text, &line)?;
        }
    }
    Ok(())
}

/// The list of a cache.
fn list_of<T: TicketEtypes>(alloc: Global, cache: &CcacheView) -> Result<Vec<u8>, AllocError>
    ensures { IfOk result (λ text. IsCcacheListing T.etype cache.now text.items) }
{
    let own = text_of_principal(alloc, cache.principal().principal())?;
    let first = default_line(alloc, &own)?;
    let mut text = text_of_heads(alloc, &first, HEADER)?;
    push_tickets::<T>(alloc, &own, cache.credentials(), &mut text)?;
    Ok(text)
}

/// The list of the credential cache of version 3 or 4 that the octets are (MIT Kerberos, "Credential cache file format"), as `klist -f -e` has it:
/// the line `Default principal: ` and that principal, the line `Valid starting        Expires               Service principal`, and a line for each
/// credential, in their order, with a line feed at the end of each. Of a credential it has the start, which is the authtime where the starttime is 0,
/// the end, and the server, two blanks between them; and then, each behind two blanks: `for client` and the client, where its text is not that of the
/// default principal; `renew until` and that time, where it is not 0; `Flags: ` and the letters of the flags that are set, where one of those with a
/// letter is; and `Etype (skey, tkt): ` with the encryption types of the session key and of the ticket:
///
/// ```text
/// 2026-11-26T05:49:48Z  2026-11-26T15:49:48Z  krbtgt/LAB.EXAMPLE@LAB.EXAMPLE  Flags: FIA  Etype (skey, tkt): aes256-cts-hmac-sha1-96, aes256-cts-hmac-sha1-96
/// ```
///
/// Configuration entries (`CredentialView::is_config`) are left out, as klist does without `-C`, and
/// so are removed ones (`CredentialView::is_removed`). The letters are F forwardable, f forwarded,
/// P proxiable, p proxy, D may-postdate, d postdated, i invalid, R renewable, I initial, H hw-authent,
/// A pre-authent, T transited-policy-checked, O ok-as-delegate and a anonymous, in this order. The
/// ticket's encryption type is `unreadable` where its octets are no encoding of a Ticket (RFC 4120,
/// 5.3), or the number does not fit 64 bits. Texts are as those of `list_of_keytab`, and all of it is
/// printable ASCII.
///
/// Other octets are refused with their first error, as by `CcacheView::new`. An allocation failure is `OutOfMemory`, and comes only where they are
/// such a cache.
pub fn list_of_ccache(alloc: Global, octets: &[u8]) -> Result<Vec<u8>, ListError>
    ensures found { IfOk result (λ text. (cache : Ccache) × CcacheIs octets.now cache × IsCcacheListing
        (IsEncodedEtypeText ⟦<Ticket as DerEncode>⟧.is_value ⟦<Ticket as DerEncode>⟧.enc (λ t. t.enc_part.etype)) cache text.items) }
    ensures reads { (cache : Ccache) → CcacheIs octets.now cache → MatchResult result (λ text. Unit {0}) (λ e. e ≡ ListError.OutOfMemory) }
    ensures rejected { IfErr result (IsNoCcache octets.now) }
{
    let cache = CcacheView::new(octets)?;
    Ok(list_of::<Tickets>(alloc, &cache)?)
}
