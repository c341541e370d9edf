//! Pages of PA-PK-AS-REPs (RFC 4556, 3.2.3).

ghost use Rattle.std.specs.Prelude.{◌≡◌};
ghost use Rattle.krb_show.specs.RowWalk.{IsWalkBy};
ghost use Rattle.krb_show.specs.declared.rows.walk.Walk.TheVariants as walks;
ghost use Rattle.krb_show_messages.specs.Shown.{items_shown};
ghost use Rattle.krb_show_pages.specs.Choices.{IsReplyBy, IsReplyTold, is_pack};

use krb_der::Asn1DerError;
use krb_schema::Item;
use krb_show::{Label, Page, Secrets, ShowFields, push_items, show_struct};
use krb_show_messages::{KerberosFormats, items_by_row};
use std::alloc::{AllocError, Global};

/// Whether octets begin as the second alternative.
fn is_pack(octets: &[u8]) -> bool
    ensures { result ≡ is_pack octets.now }
{
    match octets {
        [0x81, ..] => true,
        _ => false,
    }
}

/// The items of an alternative, lent for showing.
#[derive(Drop)]
struct Alternative<'a> {
    octets: &'a [u8],
    items: &'a [Item],
}

impl<'a> ShowFields for Alternative<'a> {
    ghost shows = { λ f. items_shown f.octets.now f.items.now };

    fn show_fields(&self, alloc: Global, page: &mut Page) -> Result<(), AllocError> {
        push_items::<KerberosFormats>(alloc, Secrets::Shown, self.octets, self.items, page)
    }
}

/// The page of a reply whose alternative has this row and this name.
fn page_by_alternative(
    alloc: Global,
    row: &'static str,
    text: &'static str,
    octets: &[u8],
) -> Result<Page, Asn1DerError>
    ensures { IsReplyBy row.now text.now (λ p. p.items) octets.now result }
{
    let items = items_by_row(alloc, row, text, octets)?;
    let label = Label::new("PA-PK-AS-REP");
    let fields = Alternative {
        octets,
        items: &items,
    };
    let mut page = Vec::new(alloc);
    show_struct(alloc, &label, &fields, &mut page)?;
    Ok(page)
}

/// The page of a PA-PK-AS-REP: a struct of its alternative, which the first octet tells: `81` encKeyPack, and else dhInfo. What is no element of the row of
/// the alternative is refused with its first error, from the left.
pub fn page_of_reply(alloc: Global, octets: &[u8]) -> Result<Page, Asn1DerError>
    ensures { IsReplyTold (λ p. p.items) octets.now result }
{
    if is_pack(octets) {
        return page_by_alternative(alloc, "PA-PK-AS-REP (encKeyPack)", "encKeyPack", octets);
    }
    page_by_alternative(alloc, "PA-PK-AS-REP (dhInfo)", "dhInfo", octets)
}
