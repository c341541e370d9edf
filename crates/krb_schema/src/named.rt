//! Rows of types by name.

ghost use Rattle.std.specs.Prelude.{◌≡◌, map};
ghost use Rattle.krb_schema.specs.Named.{row_in};
ghost use Rattle.krb_schema.specs.Types.{types};

use crate::kerberos::types;

/// The row of the first type of this name.
fn row_in(rows: &[(&'static str, usize)], name: &str) -> Option<usize>
    ensures { result ≡ row_in (map (λ row. (row.0.now, row.1)) rows.now) name.now }
{
    let (row, rest) = rows.split_first()?;
    if row.0.as_bytes() == name.as_bytes() {
        Some(row.1)
    } else {
        row_in(rest, name)
    }
}

/// The row of the type that its standard calls so, as `AS-REQ` or `PrincipalName`, in `kerberos::kerberos()`; `None` where there is no such type.
pub fn row_named(name: &str) -> Option<usize>
    ensures { result ≡ row_in types name.now }
{
    row_in(types(), name)
}
