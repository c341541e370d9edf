//! What the program calls of the library.

ghost use Rattle.std.specs.Prelude.{IfOk, IfErr, Bool, ℕ, List, Option};
ghost use Rattle.krb_accept_report.specs.Questions.{Question};
ghost use Rattle.krb_accept_report.specs.Reports.{IsNotSaid, IsReport};
ghost use Rattle.krb_accept_report.specs.declared.report.ReportError.{ReportError};
ghost use Rattle.krb_kdc_proxy.specs.Messages.{OrMemory};
ghost use Rattle.krb_kdc_proxy.specs.Replies.{reply_types};
ghost use Rattle.krb_kdc_proxy.specs.Requests.{types};
ghost use Rattle.krb_kdc_proxy.specs.declared.error.ProxyError.{ProxyError};
ghost use Rattle.krb_file_tools.specs.Answers.{IsMemoryOr};
ghost use Rattle.krb_file_tools.specs.declared.convert.error.ConvertError.{ConvertError};
ghost use Rattle.krb_file_tools.specs.declared.convert.field.Field.{Field};
ghost use Rattle.krb_schema.specs.declared.item.Item.{Item};
ghost use Rattle.krb_show.specs.Tokens.{Token};
ghost use Rattle.krb_show_any.specs.Broken.{AreBrokenOf};
ghost use Rattle.krb_show_any.specs.Places.{IsPlaceOf};
ghost use Rattle.krb_show_any.specs.declared.error.PageError.{PageError};
ghost use Rattle.krb_show_any.specs.declared.kind.Kind.{Kind};
ghost use Rattle.krb_decrypt.specs.Keys.{NamedKey};
ghost use Rattle.krb_decrypt.specs.Pages.{is_decrypted_page};
ghost use Rattle.jolmurig.specs.Calls.{blocked, converted_to, listed_as, no_list, passed_on, unconverted_to};
ghost use Rattle.jolmurig_command.specs.declared.command.Direction.{Direction};
ghost use Rattle.jolmurig_command.specs.declared.command.Format.{Format};
ghost use Rattle.jolmurig.specs.declared.calls.Entries.{Entries};

use crate::proxy::{Passed, reply_passed, request_passed};
use jolmurig_command::{Direction, Format};
use krb_accept::Kerberos;
use krb_accept_report::{Question, Report, ReportError, report_of};
use krb_accept_rules::Opening;
use krb_decrypt::{Key, TellsBehind};
use krb_der::DerEncode;
use krb_enc_parts::data_types::EncKrbCredPart;
use krb_file_tools::convert::{ConvertError, Converted, ccache_of_kirbi, kirbi_of_ccache};
use krb_file_tools::list::{ListError, list_of_ccache, list_of_keytab};
use krb_gss_tokens::gss_api::{ApplicationTag0, GssApiNegInit};
use krb_kdc_proxy::ProxyError;
use krb_messages::messages::{
    ApRep, ApReq, AsRep, AsReq, KdcProxyMessage, KrbCred, KrbError, KrbPriv, TgsRep, TgsReq,
};
use krb_schema::Item;
use krb_show::{Page, ShowsFormats};
use krb_show_any::{Kind, PageError, broken_rules_of, place_of_error};
use krb_show_messages::KerberosFormats;
use krb_show_pac::{Checksums, page_with_checked};
use krb_types::data_types::{AuthorizationData, Ticket};
use std::alloc::{AllocError, Global};

/// What a file of entries is.
#[derive(Clone, Copy, PartialEq, Eq)]
pub enum Entries {
    /// A keytab.
    Keytab,
    /// A credential cache.
    Ccache,
}

/// What the program calls of the library.
pub trait Calls {
    /// What is opened: how many keys there may be with those that are found, the keys, the page, and the page with what the keys open and what is
    /// known of checksums.
    ghost opens: { ℕ → List NamedKey → List Token → List Token → Type 0 };

    /// Where an error is: the kind of the octets, the error, the octets, and how many stand before it.
    ghost places: { Kind → PageError → List ℕ → Option ℕ → Type 0 };

    /// What breaks a rule: the kind of the octets, the octets, and the items that do.
    ghost breaks: { Kind → List ℕ → List Item → Type 0 };

    /// What is listed: the octets of a file of entries, and the text.
    ghost lists: { Entries → List ℕ → List ℕ → Type 0 };

    /// What is converted to a format: the octets, those in that format, and what is left out.
    ghost converts: { Format → List ℕ → List ℕ → List Field → Type 0 };

    /// Why octets are not converted to a format.
    ghost unconverted: { Format → List ℕ → ConvertError → Type 0 };

    /// What a proxy passes on: the octets, those that go on, and the line that says for whom.
    ghost passes: { Direction → List ℕ → List ℕ → List ℕ → Type 0 };

    /// Why it passes on none.
    ghost blocks: { Direction → List ℕ → ProxyError → Type 0 };

    /// What is said of a token: what is asked about it, whether its client is let in, and the line.
    ghost judges: { Question → Bool → List ℕ → Type 0 };

    /// Why nothing is said of it.
    ghost misjudges: { Question → ReportError → Type 0 };

    /// The page with what the keys open and what is known of checksums.
    fn opened(alloc: Global, most: usize, keys: Vec<Key>, page: Page) -> Result<Page, AllocError>
        ensures { IfOk result (λ made. opens most keys.items page.items made.items) };

    /// How many octets of a kind stand before an error of theirs.
    fn place_of(
        alloc: Global,
        kind: Kind,
        why: &PageError,
        octets: &[u8],
    ) -> Result<Option<usize>, AllocError>
        ensures { IfOk result (places kind why.now octets.now) };

    /// The items of octets of a kind that break a rule of their standard.
    fn broken(alloc: Global, kind: Kind, octets: &[u8]) -> Result<Vec<Item>, AllocError>
        ensures { IfOk result (λ items. breaks kind octets.now items.items) };

    /// The list of the entries that octets are.
    fn listed(alloc: Global, entries: Entries, octets: &[u8]) -> Result<Vec<u8>, ListError>
        ensures found { IfOk result (λ text. lists entries octets.now text.items) }
        ensures rejected { IfErr result (no_list entries octets.now) };

    /// Octets in a format.
    fn converted(alloc: Global, to: Format, octets: &[u8]) -> Result<Converted, ConvertError>
        ensures found { IfOk result (λ c. converts to octets.now c.octets.items c.left_out.items) }
        ensures rejected { IfErr result (λ e. IsMemoryOr e (unconverted to octets.now e)) };

    /// What a proxy passes on of the octets.
    fn passed(alloc: Global, way: Direction, octets: &[u8]) -> Result<Passed, ProxyError>
        ensures found { IfOk result (λ p. passes way octets.now p.octets.items p.line.items) }
        ensures rejected { IfErr result (OrMemory (blocks way octets.now)) };

    /// Whether the client of a token is let in.
    fn judged(alloc: Global, question: &Question) -> Result<Report, ReportError>
        ensures said { IfOk result (λ r. judges question.now r.accepts r.line.items) }
        ensures none { IfErr result (misjudges question.now) };
}

/// The calls of the library.
#[derive(Drop)]
pub struct Library;

impl Calls for Library {
    ghost opens = { λ most keys. is_decrypted_page ⟦<KerberosFormats as ShowsFormats>⟧.tells ⟦<KerberosFormats as ShowsFormats>⟧.places ⟦<Checksums as TellsBehind>⟧.tells most keys keys };

    ghost places = { IsPlaceOf };

    ghost breaks = { AreBrokenOf };

    ghost lists = { listed_as ⟦<Ticket as DerEncode>⟧ };

    ghost converts = { converted_to ⟦<KrbCred as DerEncode>⟧ ⟦<EncKrbCredPart as DerEncode>⟧ ⟦<Ticket as DerEncode>⟧ };

    ghost unconverted = { unconverted_to ⟦<KrbCred as DerEncode>⟧ ⟦<EncKrbCredPart as DerEncode>⟧ ⟦<Ticket as DerEncode>⟧ };

    ghost passes = { passed_on ⟦<KdcProxyMessage as DerEncode>⟧
        (types ⟦<AsReq as DerEncode>⟧ ⟦<TgsReq as DerEncode>⟧ ⟦<ApReq as DerEncode>⟧ ⟦<KrbPriv as DerEncode>⟧)
        (reply_types ⟦<AsRep as DerEncode>⟧ ⟦<TgsRep as DerEncode>⟧ ⟦<KrbError as DerEncode>⟧ ⟦<ApRep as DerEncode>⟧ ⟦<KrbPriv as DerEncode>⟧) };

    ghost blocks = { blocked ⟦<KdcProxyMessage as DerEncode>⟧
        (types ⟦<AsReq as DerEncode>⟧ ⟦<TgsReq as DerEncode>⟧ ⟦<ApReq as DerEncode>⟧ ⟦<KrbPriv as DerEncode>⟧)
        (reply_types ⟦<AsRep as DerEncode>⟧ ⟦<TgsRep as DerEncode>⟧ ⟦<KrbError as DerEncode>⟧ ⟦<ApRep as DerEncode>⟧ ⟦<KrbPriv as DerEncode>⟧) };

    ghost judges = { IsReport ⟦<KrbCred as DerEncode>⟧ ⟦<EncKrbCredPart as DerEncode>⟧ ⟦<AuthorizationData as DerEncode>⟧
        ⟦<ApplicationTag0<GssApiNegInit> as DerEncode>⟧ ⟦<Kerberos as Opening>⟧ };

    ghost misjudges = { IsNotSaid };

    fn opened(alloc: Global, most: usize, keys: Vec<Key>, page: Page) -> Result<Page, AllocError> {
        page_with_checked(alloc, most, keys, page)
    }

    fn place_of(
        alloc: Global,
        kind: Kind,
        why: &PageError,
        octets: &[u8],
    ) -> Result<Option<usize>, AllocError> {
        place_of_error(alloc, kind, why, octets)
    }

    fn broken(alloc: Global, kind: Kind, octets: &[u8]) -> Result<Vec<Item>, AllocError> {
        broken_rules_of(alloc, kind, octets)
    }

    fn listed(alloc: Global, entries: Entries, octets: &[u8]) -> Result<Vec<u8>, ListError> {
        match entries {
            Entries::Keytab => list_of_keytab(alloc, octets),
            Entries::Ccache => list_of_ccache(alloc, octets),
        }
    }

    fn converted(alloc: Global, to: Format, octets: &[u8]) -> Result<Converted, ConvertError> {
        match to {
            Format::Kirbi => kirbi_of_ccache(alloc, octets),
            Format::Ccache => ccache_of_kirbi(alloc, octets),
        }
    }

    fn passed(alloc: Global, way: Direction, octets: &[u8]) -> Result<Passed, ProxyError> {
        match way {
            Direction::Request => request_passed(alloc, octets),
            Direction::Reply => reply_passed(alloc, octets),
        }
    }

    fn judged(alloc: Global, question: &Question) -> Result<Report, ReportError> {
        report_of(alloc, question)
    }
}
