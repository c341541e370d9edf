//! Names by their numbers, and types by their names.

ghost use Rattle.std.specs.Prelude.{◌≡◌, ◌+◌, ◌<◌, ◌^◌, length, map, None, Some, MatchOption};
ghost use Rattle.std.specs.List.{slice_get};
ghost use Rattle.krb_schema.specs.NameTable.{name_table};
ghost use Rattle.krb_schema.specs.Named.{row_in};
ghost use Rattle.krb_schema.specs.Names.{number_from};
ghost use Rattle.krb_schema.specs.Types.{types};

use crate::kerberos::types;
use crate::name_table::name_table;

/// The number of the first of these names that is this one, where the first has this number.
fn number_from(number: usize, names: &[&'static str], name: &str) -> Option<usize>
    requires { number + length names.now < 2 ^ 64 }
    ensures { result ≡ number_from number (map (λ other. other.now) names.now) name.now }
{
    let (other, behind) = names.split_first()?;
    if other.as_bytes() == name.as_bytes() {
        Some(number)
    } else {
        number_from(number + 1, behind, name)
    }
}

/// The number of a name of a field or of a type, which is that of no other name; `None` of a text that is none. A name keeps its number.
pub fn number_of_name(name: &str) -> Option<usize>
    ensures { result ≡ number_from 0 name_table name.now }
{
    number_from(0, name_table(), name)
}

/// The name of a number.
pub fn name_of_number(number: usize) -> Option<&'static str>
    ensures { MatchOption result (slice_get name_table number ≡ None) (λ name. slice_get name_table number ≡ Some name.now) }
{
    let names = name_table();
    if number < names.len() {
        Some(names[number])
    } else {
        None
    }
}

/// The first of these types that has this name, and its row.
fn type_in(rows: &[(&'static str, usize)], name: &[u8]) -> Option<(&'static str, usize)>
    ensures { MatchOption result (row_in (map (λ row. (row.0.now, row.1)) rows.now) name.now ≡ None)
        (λ found. (found.0.now ≡ name.now) × (row_in (map (λ row. (row.0.now, row.1)) rows.now) name.now ≡ Some found.1)) }
{
    let (row, rest) = rows.split_first()?;
    if row.0.as_bytes() == name {
        Some(*row)
    } else {
        type_in(rest, name)
    }
}

/// The type that its standard calls so, as `AS-REQ` or `PrincipalName`, and its row in `kerberos::kerberos()`; `None` where there is no such type.
pub fn type_named(name: &[u8]) -> Option<(&'static str, usize)>
    ensures { MatchOption result (row_in types name.now ≡ None)
        (λ found. (found.0.now ≡ name.now) × (row_in types name.now ≡ Some found.1)) }
{
    type_in(types(), name)
}
