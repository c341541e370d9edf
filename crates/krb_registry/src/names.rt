//! Numbers to names, and names to numbers.

ghost use Rattle.std.specs.Prelude.{◌≡◌, ◌↔◌, IsTrue, IfSome, IfNone, All};
ghost use Rattle.krb_registry.specs.Names.{table, mechanisms, IsRow, IsMechanism};

use crate::kind::Kind;
use crate::tables::{mechanism_rows, rows};

/// Whether these are the same octets.
fn is_same(first: &str, second: &str) -> bool
    ensures { IsTrue result ↔ first.now ≡ second.now }
{
    first == second
}

/// The name of this number, as the standards of its kind spell it (`Kind` has them); printable ASCII without blanks. `None`
/// where they name no such number.
pub fn name(kind: Kind, number: i64) -> Option<&'static str>
    ensures named { IfSome result (λ name. IsRow kind number name.now) }
    ensures unnamed { IfNone result (All (λ row. ¬ row.0 ≡ number) (table kind)) }
{
    for row in rows(kind) {
        if row.0 == number {
            return Some(row.1);
        }
    }
    None
}

/// The number that has this name, which is compared octet by octet. `None` where the standards of the kind have no such name.
pub fn number(kind: Kind, name: &str) -> Option<i64>
    ensures numbered { IfSome result (λ number. IsRow kind number name.now) }
    ensures unknown { IfNone result (All (λ row. ¬ row.1 ≡ name.now) (table kind)) }
{
    for row in rows(kind) {
        if is_same(row.1, name) {
            return Some(row.0);
        }
    }
    None
}

/// The name of the mechanism whose object identifier this is, in dotted numbers, as `1.2.840.113554.1.2.2`. `None` where it is
/// none of Kerberos and SPNEGO.
pub fn mechanism_name(identifier: &str) -> Option<&'static str>
    ensures named { IfSome result (λ name. IsMechanism identifier.now name.now) }
    ensures unnamed { IfNone result (All (λ row. ¬ row.0 ≡ identifier.now) mechanisms) }
{
    for row in mechanism_rows() {
        if is_same(row.0, identifier) {
            return Some(row.1);
        }
    }
    None
}

/// The object identifier of the mechanism of this name, in dotted numbers; the name is compared octet by octet. `None` where no
/// mechanism has it.
pub fn mechanism_identifier(name: &str) -> Option<&'static str>
    ensures identified { IfSome result (λ identifier. IsMechanism identifier.now name.now) }
    ensures unknown { IfNone result (All (λ row. ¬ row.1 ≡ name.now) mechanisms) }
{
    for row in mechanism_rows() {
        if is_same(row.1, name) {
            return Some(row.0);
        }
    }
    None
}
