//! Keytabs (MIT Kerberos, "Keytab file format").

ghost use Rattle.std.specs.Prelude.{◌≡◌, List, IfOk, IfErr, MatchResult};
ghost use Rattle.krb_files.specs.Entry.{Entry};
ghost use Rattle.krb_files.specs.Keytab.{KeytabIs};
ghost use Rattle.krb_file_tools.specs.Lines.{IsEntryLine, IsKeytabListing, IsNoKeytab};
ghost use Rattle.krb_file_tools.specs.Texts.{padded};
ghost use Rattle.krb_show_text.specs.Text.{ArePrintable};
ghost use Rattle.std.specs.Fmt.{decimal};

use crate::list::error::ListError;
use crate::list::etype::text_of_etype;
use crate::list::lines::{joined, padded, push_line};
use crate::list::principal::text_of_principal;
use crate::list::time::text_of_seconds;
use krb_files::keytab::{EntryView, KeytabView};
use std::alloc::{AllocError, Global};

/// The version of a key in four columns, or more.
#[tactic(auto, using(crate::proofs::Printable::printable_version))]
fn version_column(alloc: Global, kvno: u32) -> Result<Vec<u8>, AllocError>
    ensures text { IfOk result (λ text. text.items ≡ padded (decimal kvno)) }
    ensures printable { IfOk result (λ text. ArePrintable text.items) }
{
    let digits = format!(in alloc; "{kvno}")?;
    padded(alloc, digits.as_bytes())
}

/// The line of an entry.
fn line_of_entry(alloc: Global, entry: &EntryView) -> Result<Vec<u8>, AllocError>
    ensures line { IfOk result (λ line. IsEntryLine entry.now line.items) }
    ensures printable { IfOk result (λ line. ArePrintable line.items) }
{
    let version = version_column(alloc, entry.kvno())?;
    let time = text_of_seconds(alloc, entry.timestamp())?;
    let principal = text_of_principal(alloc, entry.principal())?;
    let etype = text_of_etype(alloc, i64::from(entry.etype()))?;
    let pieces = [
        version.as_slice(),
        b" ",
        time.as_slice(),
        b" ",
        principal.as_slice(),
        b" (",
        etype.as_slice(),
        b")",
    ];
    let line = joined(alloc, &pieces)?;
    Ok(line)
}

/// The list of the keytab of version 2 that the octets are (MIT Kerberos, "Keytab file format"), as `klist -kte` has it: the line
/// `KVNO Timestamp            Principal`, and a line for each entry, in their order, with a line feed at the end of each. Of an entry it has the
/// version of the key, the number of 32 bits where the record has one that is not 0, in four columns or more; the time; the principal; and
/// the encryption type in parentheses, with a blank before each:
///
/// ```text
///    2 2026-11-26T05:49:48Z HTTP/web.lab.example@LAB.EXAMPLE (aes256-cts-hmac-sha1-96)
/// ```
///
/// All of it is printable ASCII. Times are in UTC, to the second. A principal is written as in RFC 1964, 2.1.1: a `/`, `@` or `\` within a component
/// or the realm stands behind a `\`, and a line feed, a tabulator, a backspace and a NUL are `\n`, `\t`, `\b` and `\0`; a blank and each other octet
/// that is not printable are `\x` and two hexadecimal digits, so that no principal has a blank. An encryption type without a name is `etype` and
/// its number.
///
/// Other octets are refused with their first error, as by `KeytabView::new`. An allocation failure is `OutOfMemory`, and comes only where they are
/// a keytab.
pub fn list_of_keytab(alloc: Global, octets: &[u8]) -> Result<Vec<u8>, ListError>
    ensures found { IfOk result (λ text. (entries : List Entry) × KeytabIs octets.now entries × IsKeytabListing entries text.items) }
    ensures reads { (entries : List Entry) → KeytabIs octets.now entries → MatchResult result (λ text. Unit {0}) (λ e. e ≡ ListError.OutOfMemory) }
    ensures rejected { IfErr result (IsNoKeytab octets.now) }
{
    let keytab = KeytabView::new(octets)?;
    let mut text = Vec::new(alloc);
    push_line(&mut text, b"KVNO Timestamp            Principal")?;
    'entries: for entry in keytab.entries() {
        let line = line_of_entry(alloc, &entry)?;
        push_line(&mut text, &line)?;
    }
    Ok(text)
}
