//! Pages with what keys decrypt, and what is told of tickets.

ghost use Rattle.std.specs.Prelude.{◌≡◌, IfOk};
ghost use Rattle.krb_decrypt.specs.Pages.{is_decrypted_page};

use crate::parts::Checksums;
use krb_decrypt::{Key, TellsBehind, page_with_decrypted};
use krb_show::{Page, ShowsFormats};
use krb_show_messages::KerberosFormats;
use std::alloc::{AllocError, Global};

/// The same keys.
fn copies_of(alloc: Global, keys: &[Key]) -> Result<Vec<Key>, AllocError>
    ensures { IfOk result (λ copies. copies.items ≡ keys.now) }
{
    let mut copies = Vec::with_capacity(alloc, keys.len())?;
    for key in keys {
        copies.push(key.copy(alloc)?)?;
    }
    Ok(copies)
}

/// The page with what the keys decrypt, as `page_with_decrypted` of `krb_decrypt` makes it, and behind each ticket that a key decrypts what is known of the
/// checksums of its first PAC (MS-PAC 2.8).
///
/// These keys are the caller's own. A checksum is said to hold under them alone: a key that is found in a part, as a session key, decrypts what follows,
/// but its other holders could have made the checksum with it. Whoever wants it to count, as for a ticket that was issued for user-to-user
/// authentication (RFC 4120, 3.7), gives it here. A checksum of the KDC holds for what it proves only if the key that is told is the KDC's alone.
///
/// There are `most` keys at most, with those that are found. The only error is an allocation failure.
pub fn page_with_checked(
    alloc: Global,
    most: usize,
    keys: Vec<Key>,
    page: Page,
) -> Result<Page, AllocError>
    ensures { IfOk result (λ made. is_decrypted_page ⟦<KerberosFormats as ShowsFormats>⟧.tells ⟦<KerberosFormats as ShowsFormats>⟧.places ⟦<Checksums as TellsBehind>⟧.tells most keys.items
        keys.items page.items made.items) }
{
    let own = copies_of(alloc, &keys)?;
    page_with_decrypted::<KerberosFormats, Checksums>(alloc, most, keys, Checksums::new(own), page)
}
