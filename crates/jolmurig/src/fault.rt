//! What is wrong with arguments, as text.

ghost use Rattle.std.specs.Prelude.{◌≡◌, ◌++◌, OnOk};
ghost use Rattle.krb_show_text.specs.Text.{escaped};
ghost use Rattle.krb_show_text.specs.declared.escape.Style.TheVariants as style;
ghost use Rattle.jolmurig.specs.Faults.{fault_text};

use jolmurig_command::{Fault, Word};
use krb_show_text::{Style, push_escaped};
use std::alloc::AllocError;

/// Appends these octets and an argument.
fn push_behind(line: &mut Vec<u8>, before: &[u8], word: &Word) -> Result<(), AllocError>
    ensures { OnOk result (line.new.items ≡ line.old.items ++ (before.now ++ escaped style.Plain word.now)) }
{
    line.extend_from_slice(before)?;
    push_escaped(line, Style::Plain, word.text.as_bytes())
}

/// Appends an argument and these octets.
fn push_before(line: &mut Vec<u8>, word: &Word, behind: &[u8]) -> Result<(), AllocError>
    ensures { OnOk result (line.new.items ≡ line.old.items ++ (escaped style.Plain word.now ++ behind.now)) }
{
    push_escaped(line, Style::Plain, word.text.as_bytes())?;
    line.extend_from_slice(behind)
}

/// Appends these octets.
fn push_text(line: &mut Vec<u8>, text: &[u8]) -> Result<(), AllocError>
    ensures { OnOk result (line.new.items ≡ line.old.items ++ text.now) }
{
    line.extend_from_slice(text)
}

/// Appends what is wrong.
pub fn push_fault(line: &mut Vec<u8>, fault: &Fault) -> Result<(), AllocError>
    ensures { OnOk result (line.new.items ≡ line.old.items ++ fault_text fault.now) }
{
    match fault {
        Fault::NoCommand => push_text(line, b"a command is missing"),
        Fault::UnknownCommand(word) => push_behind(line, b"unknown command ", word),
        Fault::UnknownOption(word) => push_behind(line, b"unknown option ", word),
        Fault::Empty => push_text(line, b"an argument is empty"),
        Fault::Unexpected(word) => push_behind(line, b"unexpected argument ", word),
        Fault::NoValue(word) => push_before(line, word, b" needs a value"),
        Fault::Twice(word) => push_before(line, word, b" is given twice"),
        Fault::TypeAndTree => push_text(line, b"--as and --tree exclude each other"),
        Fault::JsonAndType => push_text(line, b"--json and --type exclude each other"),
        Fault::NoType => push_text(line, b"check needs --as TYPE"),
        Fault::NoFormat => push_text(line, b"convert needs kirbi or ccache"),
        Fault::NoDirection => push_text(line, b"proxy needs request or reply"),
        Fault::NoKeytab => push_text(line, b"accept needs --keytab FILE"),
        Fault::OtherPac => push_text(line, b"--pac needs required or ignored"),
    }
}
