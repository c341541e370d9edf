//! Keytabs (MIT Kerberos, "Keytab file format").

ghost use Rattle.std.specs.Prelude.{◌≡◌, [], List, IfOk, IfErr, MatchResult, codes};
ghost use Rattle.krb_files.specs.Entry.{Entry};
ghost use Rattle.krb_files.specs.Keytab.{KeytabIs};
ghost use Rattle.krb_show.specs.Tokens.{plain};
ghost use Rattle.krb_show_pages.specs.Files.{IsNoKeytab, entry_of, keytab_of};

use crate::files::File;
use crate::files::error::FilePageError;
use crate::files::values::{KeyOctets, Realm, Seconds};
use krb_files::fields::ComponentsView;
use krb_files::keytab::{EntryView, KeytabView};
use krb_show::{Label, Page, Show, show_fields, show_list, show_struct};
use std::alloc::{AllocError, Global};

/// The fields of an entry.
#[derive(Drop)]
struct EntryFields<'a> {
    name_type: u32,
    realm: Realm<'a>,
    components: ComponentsView<'a>,
    timestamp: Seconds,
    vno: u32,
    keytype: u32,
    keyvalue: KeyOctets<'a>,
}

/// An entry: a principal's key.
impl<'a> Show<File> for EntryView<'a> {
    ghost shows = { entry_of };

    fn show(&self, alloc: Global, label: &Label, page: &mut Page) -> Result<(), AllocError> {
        let fields = EntryFields {
            name_type: self.name_type(),
            realm: Realm {
                octets: self.realm(),
            },
            components: self.components(),
            timestamp: Seconds {
                seconds: self.timestamp(),
            },
            vno: self.kvno(),
            keytype: u32::from(self.etype()),
            keyvalue: KeyOctets { octets: self.key() },
        };
        show_struct(
            alloc,
            label,
            &show_fields!(
                File; fields;
                "name-type" NameType = name_type,
                "realm" = realm,
                "components" = components,
                "timestamp" = timestamp,
                "vno" = vno,
                "keytype" EncryptionType = keytype,
                "keyvalue" = keyvalue
            ),
            page,
        )
    }
}

/// The entries of a keytab.
fn entries<'a>(alloc: Global, keytab: &KeytabView<'a>) -> Result<Vec<EntryView<'a>>, AllocError>
    ensures { IfOk result (λ entries. entries.items ≡ keytab.now) }
{
    keytab.entries().collect(alloc)
}

/// The page of the keytab of version 2 that the octets are (MIT Kerberos, "Keytab file format"): under the name `keytab` a list of its entries, in
/// their order. Of each entry it shows the type of the name, the realm, the components, the timestamp, the version of the key, the encryption type
/// and the key. The version `vno` is the number of 32 bits behind the key, where the record has one that is not 0, else that of 8 bits.
///
/// No line shows what holes hold, what is behind a length of 0, the version of 8 bits where that of 32 bits overrides it, and octets behind the
/// version of 32 bits in a record. Other octets are refused with their first error, as by `KeytabView::new`. An allocation failure is `OutOfMemory`,
/// and comes only where they are a keytab.
pub fn page_of_keytab(alloc: Global, octets: &[u8]) -> Result<Page, FilePageError>
    ensures found { IfOk result (λ page. (entries : List Entry) × KeytabIs octets.now entries × keytab_of (plain (codes "keytab")) entries [] page.items) }
    ensures reads { (entries : List Entry) → KeytabIs octets.now entries → MatchResult result (λ page. Unit {0}) (λ e. e ≡ FilePageError.OutOfMemory) }
    ensures rejected { IfErr result (IsNoKeytab octets.now) }
{
    let keytab = KeytabView::new(octets)?;
    let entries = entries(alloc, &keytab)?;
    let label = Label::new("keytab");
    let mut page = Vec::new(alloc);
    show_list::<File, _>(alloc, &label, &entries, &mut page)?;
    Ok(page)
}
