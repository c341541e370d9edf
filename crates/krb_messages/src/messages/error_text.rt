//! Texts of errors.

ghost use Rattle.std.specs.Prelude.{Some};
ghost use Rattle.krb_messages.specs.CodeText.{code_text};

use crate::messages::errors::KrbErrorInner;
use std::fmt;

/// The code, as `0x` and its upper case hexadecimal digits, at least two: that of 25 is `0x19`.
impl fmt::Display for KrbErrorInner {
    ghost output = { λ e. Some (code_text e.error_code) };

    fn fmt<W: fmt::Write>(&self, f: &mut fmt::Formatter<W>) -> fmt::Result {
        let code = self.error_code.0;
        write!(f, "0x{code:02X}")
    }
}
