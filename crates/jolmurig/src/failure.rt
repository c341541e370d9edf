//! Why a run is rejected.

ghost use Rattle.std.specs.IoError.{error_kind};
ghost use Rattle.std.specs.Prelude.{◌≡◌, ◌≢◌, ◌++◌, codes, IfOk, OnOk};
ghost use Rattle.std.specs.declared.io.ErrorKind.TheVariants as kinds;
ghost use Rattle.jolmurig.specs.declared.failure.Failure.TheVariants as failures;
ghost use Rattle.krb_show_text.specs.Text.{escaped};
ghost use Rattle.krb_show_text.specs.declared.escape.Style.TheVariants as style;
ghost use Rattle.jolmurig.specs.Files.{unread_reason};
ghost use Rattle.jolmurig.specs.Failures.{breaker, file_text, kind_of_message, line_of, of_input, mark, option_of, own_line, place, place_text, placed, plain_reason, reason, rule_of, rule_of_proxy, status_of_failure, subject, undecided_reason, undecided_subject};

use crate::fault::push_fault;
use crate::files::{Purpose, Unread, UnreadFile};
use crate::hints::push_hint;
use crate::unknown::Unknown;
use jolmurig_command::{Fault, TypeName};
use krb_file_tools::convert::ConvertError;
use krb_files::keytab::KeytabError;
use krb_input::InputError;
use krb_kdc_proxy::{MessageKind, ProxyError};
use krb_show_any::{Kind, PageError, name_of_kind};
use krb_show_text::{Style, push_escaped};
use std::alloc::{AllocError, Global};
use std::io;

/// Why nothing is decided of a token.
#[derive(Drop)]
pub enum Undecided<'a> {
    /// A file is not read: the input, or that of the option `--keytab`.
    NoFile(UnreadFile<'a>),
    /// The file of the option `--keytab` is no keytab: its first error.
    Keytab(KeytabError),
    /// The clock could not be read.
    Clock,
    /// The input begins as PEM or as a header of HTTP, and what follows is no base64.
    NotBase64,
    /// An allocation failed.
    Memory,
    /// Standard input could not be read.
    Read,
    /// The output could not be written.
    Write,
}

/// Why a run is rejected.
#[derive(Drop)]
pub enum Failure<'a> {
    /// The arguments are no command: what is wrong with them.
    Arguments(Fault<'a>),
    /// An argument is no text.
    NotText,
    /// No type has the name that is asked for.
    NoType(TypeName<'a>),
    /// The text of an option `--key` is no key.
    Key,
    /// A file is not read.
    NoFile(UnreadFile<'a>),
    /// The text of the file of an option `--key-file` is no key.
    KeyInFile,
    /// The file of an option `--keytab` is no keytab: its first error.
    Keytab(KeytabError),
    /// The input begins as PEM or as a header of HTTP, and what follows is no base64.
    NotBase64,
    /// The octets begin as no kind that is told by first octets: what they are.
    UnknownKind(Unknown),
    /// The octets begin as neither a keytab nor a credential cache.
    NoEntries,
    /// The octets are not converted: the rule that they break.
    Convert(ConvertError),
    /// Nothing of the octets passes through a proxy: the rule that they break.
    Proxy(ProxyError),
    /// The octets are none of this kind, for this reason, behind so many of them, if that is known.
    Octets {
        kind: Kind,
        why: PageError,
        place: Option<usize>,
    },
    /// The text of the option `--time` is no time.
    Time,
    /// The text of the option `--skew` is no number of 32 bits.
    Skew,
    /// The text of an option `--server` is that of no server.
    Server,
    /// The text of an option `--realm` is that of no realm.
    Realm,
    /// The text of the option `--bindings` is not 16 octets.
    Bindings,
    /// Nothing is decided of a token.
    Undecided(Undecided<'a>),
    /// The token is refused; the output says why.
    Refused,
    /// An allocation failed.
    Memory,
    /// Standard input could not be read.
    Read,
    /// The output could not be written.
    Write,
}

/// Appends that so many octets stand before an error.
fn push_placed(line: &mut Vec<u8>, alloc: Global, at: usize) -> Result<(), AllocError>
    ensures { OnOk result (line.new.items ≡ line.old.items ++ placed at) }
{
    let text = format!(in alloc; ", at octet {at}")?;
    line.extend_from_slice(text.as_bytes())
}

/// Appends how many octets stand before an error, if that is known.
fn push_place(line: &mut Vec<u8>, alloc: Global, place: Option<usize>) -> Result<(), AllocError>
    ensures { OnOk result (line.new.items ≡ line.old.items ++ place_text place) }
{
    match place {
        None => Ok(()),
        Some(at) => push_placed(line, alloc, at),
    }
}

/// The rule of a conversion that octets break; an error of octets that are of another format is told as that of these octets.
fn rule_of(rule: &ConvertError) -> &'static str
    ensures { result.now ≡ rule_of rule.now }
{
    match rule {
        ConvertError::Pvno => "pvno is not 5",
        ConvertError::MsgType => "msg-type is not 22",
        ConvertError::Sealed => "enc-part is sealed: its etype is not 0",
        ConvertError::TicketInfo => "there are not as many elements of ticket-info as tickets",
        ConvertError::NoTicket => "there is no ticket",
        ConvertError::NoPrealm => "prealm is absent, and a cache needs it",
        ConvertError::NoPname => "pname is absent, and a cache needs it",
        ConvertError::NameType => "a name-type does not fit 32 bits",
        ConvertError::KeyType => "a keytype does not fit 16 bits",
        ConvertError::Time => "a time is not of 1970 to 2106",
        ConvertError::AddressType => "an addr-type does not fit 16 bits",
        ConvertError::TooLong => "a length or a count does not fit 32 bits",
        ConvertError::NoCredential => "there is no credential",
        ConvertError::Name => "an octet of a name is past 127",
        ConvertError::Kirbi(_)
        | ConvertError::Part(_)
        | ConvertError::Ticket(_)
        | ConvertError::Ccache(_) => "the octets are of another format",
        ConvertError::OutOfMemory => "an allocation failed",
    }
}

/// What a message begins as: its application tag, constructed (RFC 4120, 5.10; X.690, 8.1.2).
pub fn kind_of_message(kind: MessageKind) -> Kind
    ensures { result ≡ kind_of_message kind }
{
    Kind::Application(match kind {
        MessageKind::AsReq => 0x6a,
        MessageKind::AsRep => 0x6b,
        MessageKind::TgsReq => 0x6c,
        MessageKind::TgsRep => 0x6d,
        MessageKind::ApReq => 0x6e,
        MessageKind::ApRep => 0x6f,
        MessageKind::KrbPriv => 0x75,
        MessageKind::KrbError => 0x7e,
    })
}

/// What breaks a rule of a proxy: a message, or what was to go through as a whole.
fn breaker(rule: &ProxyError) -> &'static str
    ensures { result.now ≡ breaker rule.now }
{
    match rule {
        ProxyError::Pvno(kind) | ProxyError::MsgType(kind) => name_of_kind(kind_of_message(*kind)),
        _ => "proxy",
    }
}

/// The rule of a proxy that octets break; an error of an encoding is told as that of these octets.
fn rule_of_proxy(rule: &ProxyError) -> &'static str
    ensures { result.now ≡ rule_of_proxy rule.now }
{
    match rule {
        ProxyError::TooLarge => "TooLarge: there are more than 131072 octets",
        ProxyError::NoLength => "NoLength: the message has no length in front of it",
        ProxyError::OtherLength =>
            "OtherLength: the length in front of the message is not that of the message",
        ProxyError::NoTargetDomain => "NoTargetDomain: target-domain is absent",
        ProxyError::OtherKind => "OtherKind: the message is of no kind that goes this way",
        ProxyError::FrameLength => "FrameLength: the frame is shorter than the message in it",
        ProxyError::Pvno(_) => "Pvno: pvno is not 5",
        ProxyError::MsgType(_) => "MsgType: msg-type is that of another message",
        ProxyError::ProxyMessage(_) | ProxyError::Message(_, _) => "the octets are no encoding",
        ProxyError::OutOfMemory => "an allocation failed",
    }
}

/// Why a file is not read.
fn unread_reason(why: Unread) -> &'static str
    ensures { result.now ≡ unread_reason why }
{
    match why {
        Unread::NoFile => "no such file",
        Unread::Directory => "is a directory",
        Unread::Denied => "permission denied",
        Unread::Other => "could not be read",
    }
}

/// The option that names a file for a purpose, with a blank; nothing of the input.
fn option_of(purpose: Purpose) -> &'static str
    ensures { result.now ≡ option_of purpose }
{
    match purpose {
        Purpose::Input => "",
        Purpose::Keytab => "--keytab ",
        Purpose::KeyFile => "--key-file ",
        Purpose::PasswordFile => "--password-file ",
    }
}

/// Appends the name of a file, behind the option that has it.
fn push_file(line: &mut Vec<u8>, file: &UnreadFile) -> Result<(), AllocError>
    ensures { OnOk result (line.new.items ≡ line.old.items ++ file_text file.now) }
{
    line.extend_from_slice(option_of(file.purpose).as_bytes())?;
    push_escaped(line, Style::Plain, file.name.as_bytes())
}

/// Appends that no type has this name.
fn push_no_type(line: &mut Vec<u8>, name: &TypeName) -> Result<(), AllocError>
    ensures { OnOk result (line.new.items ≡ line.old.items ++ codes "--as: no type " ++ escaped style.Plain name.now) }
{
    line.extend_from_slice(b"--as: no type ")?;
    push_escaped(line, Style::Plain, name.text.as_bytes())
}

impl<'a> Undecided<'a> {
    /// Appends what it is of.
    fn push_subject(&self, line: &mut Vec<u8>) -> Result<(), AllocError>
        ensures { OnOk result (line.new.items ≡ line.old.items ++ undecided_subject self.now) }
    {
        match self {
            Undecided::NoFile(file) => push_file(line, file),
            Undecided::Keytab(_) => line.extend_from_slice(b"--keytab"),
            Undecided::Clock => line.extend_from_slice(b"clock"),
            Undecided::NotBase64 => line.extend_from_slice(b"base64"),
            Undecided::Memory => line.extend_from_slice(b"memory"),
            Undecided::Read => line.extend_from_slice(b"reading"),
            Undecided::Write => line.extend_from_slice(b"writing"),
        }
    }

    /// What happened.
    fn reason(&self) -> &'static str
        ensures { result.now ≡ undecided_reason self.now }
    {
        match self {
            Undecided::NoFile(file) => unread_reason(file.why),
            Undecided::Keytab(why) => PageError::Keytab(*why).reason(),
            Undecided::Clock => "the clock could not be read; --time names a time",
            Undecided::NotBase64 =>
                "the input begins as PEM or as a header of HTTP, and no base64 follows",
            Undecided::Memory => "an allocation failed",
            Undecided::Read => "the input could not be read",
            Undecided::Write => "the output could not be written",
        }
    }
}

impl<'a> Failure<'a> {
    /// The status with which the program ends: 2 where the arguments are no command or name no key, time, skew, server, realm or channel
    /// bindings, and where nothing is decided of a token; else 1.
    pub fn status(&self) -> u8
        ensures { result ≡ status_of_failure self.now }
    {
        match self {
            Failure::Arguments(_) | Failure::NotText | Failure::NoType(_) => 2,
            Failure::Key | Failure::Time | Failure::Skew | Failure::Server => 2,
            Failure::Realm | Failure::Bindings | Failure::Undecided(_) => 2,
            _ => 1,
        }
    }

    /// Appends what the failure is of.
    fn push_subject(&self, line: &mut Vec<u8>) -> Result<(), AllocError>
        ensures { OnOk result (line.new.items ≡ line.old.items ++ subject self.now) }
    {
        match self {
            Failure::NoFile(file) => push_file(line, file),
            Failure::Undecided(why) => why.push_subject(line),
            Failure::Arguments(fault) => push_fault(line, fault),
            Failure::NotText => line.extend_from_slice(b"an argument is not UTF-8"),
            Failure::NoType(name) => push_no_type(line, name),
            Failure::Key => line.extend_from_slice(b"--key"),
            Failure::KeyInFile => line.extend_from_slice(b"--key-file"),
            Failure::Keytab(_) => line.extend_from_slice(b"--keytab"),
            Failure::NotBase64 => line.extend_from_slice(b"base64"),
            Failure::UnknownKind(unknown) => line.extend_from_slice(unknown.subject().as_bytes()),
            Failure::NoEntries => line.extend_from_slice(b"list"),
            Failure::Convert(_) => line.extend_from_slice(b"convert"),
            Failure::Proxy(rule) => line.extend_from_slice(breaker(rule).as_bytes()),
            Failure::Octets {
                kind,
                why: _,
                place: _,
            } => line.extend_from_slice(name_of_kind(*kind).as_bytes()),
            Failure::Time => line.extend_from_slice(b"--time"),
            Failure::Skew => line.extend_from_slice(b"--skew"),
            Failure::Server => line.extend_from_slice(b"--server"),
            Failure::Realm => line.extend_from_slice(b"--realm"),
            Failure::Bindings => line.extend_from_slice(b"--bindings"),
            Failure::Refused => line.extend_from_slice(b"refused"),
            Failure::Memory => line.extend_from_slice(b"memory"),
            Failure::Read => line.extend_from_slice(b"reading"),
            Failure::Write => line.extend_from_slice(b"writing"),
        }
    }

    /// What happened, where it does not depend on a name that is given.
    fn plain_reason(&self) -> &'static str
        ensures { result.now ≡ plain_reason self.now }
    {
        match self {
            Failure::Arguments(_) | Failure::NotText => "see jolmurig --help",
            Failure::NoType(_) => "",
            Failure::Key =>
                "a key is ETYPE:HEX, where ETYPE is 16 to 20 or the name of such an encryption type, and HEX the octets of a key of its length",
            Failure::NoFile(file) => unread_reason(file.why),
            Failure::KeyInFile =>
                "the file holds no key ETYPE:HEX, where ETYPE is 16 to 20 or the name of such an encryption type, and HEX the octets of a key of its length",
            Failure::Keytab(why) => PageError::Keytab(*why).reason(),
            Failure::NotBase64 =>
                "the input begins as PEM or as a header of HTTP, and no base64 follows",
            Failure::UnknownKind(unknown) => unknown.reason(),
            Failure::NoEntries => "the octets begin as neither a keytab nor a credential cache",
            Failure::Convert(rule) => rule_of(rule),
            Failure::Proxy(rule) => rule_of_proxy(rule),
            Failure::Octets {
                kind: _,
                why,
                place: _,
            } => why.reason(),
            Failure::Time =>
                "a time is the seconds since 1970 in decimal, or as 2026-01-02T03:04:05Z, of a year of 0 to 9999",
            Failure::Skew => "the skew is a number of seconds in decimal, of 0 to 4294967295",
            Failure::Server =>
                "a server is SERVICE/HOST@REALM, in ASCII, as HTTP/www.example.com@EXAMPLE.COM; the realm may be left out, and so may the host",
            Failure::Realm => "a realm is one or more characters of ASCII, as EXAMPLE.COM",
            Failure::Bindings => "channel bindings are 32 hexadecimal digits, an MD5",
            Failure::Undecided(why) => why.reason(),
            Failure::Refused => "the output says why",
            Failure::Memory => "an allocation failed",
            Failure::Read => "the input could not be read",
            Failure::Write => "the output could not be written",
        }
    }

    /// What stands between these two.
    fn mark(&self) -> &'static str
        ensures { result.now ≡ mark self.now }
    {
        match self {
            Failure::Arguments(_) | Failure::NotText | Failure::NoType(_) => "; ",
            _ => ": ",
        }
    }

    /// How many octets stand before the error, if that is known.
    fn place(&self) -> Option<usize>
        ensures { result ≡ place self.now }
    {
        match self {
            Failure::Octets {
                kind: _,
                why: _,
                place,
            } => *place,
            _ => None,
        }
    }

    /// Appends what happened.
    fn push_reason(&self, alloc: Global, line: &mut Vec<u8>) -> Result<(), AllocError>
        ensures { OnOk result (line.new.items ≡ line.old.items ++ reason self.now) }
    {
        match self {
            Failure::NoType(name) => push_hint(line, alloc, name.text),
            _ => line.extend_from_slice(self.plain_reason().as_bytes()),
        }
    }

    /// The line of a failure that has one.
    fn own_line(&self, alloc: Global) -> Result<Vec<u8>, AllocError>
        ensures { IfOk result (λ line. line.items ≡ own_line self.now) }
    {
        let mut line = Vec::new(alloc);
        line.extend_from_slice(b"jolmurig: ")?;
        self.push_subject(&mut line)?;
        line.extend_from_slice(self.mark().as_bytes())?;
        self.push_reason(alloc, &mut line)?;
        push_place(&mut line, alloc, self.place())?;
        line.push(b'\n')?;
        Ok(line)
    }

    /// The line that the program writes, with its newline: none where the output says why.
    pub fn line(&self, alloc: Global) -> Result<Vec<u8>, AllocError>
        ensures { IfOk result (λ line. line.items ≡ line_of self.now) }
    {
        match self {
            Failure::Refused => Ok(Vec::new(alloc)),
            _ => self.own_line(alloc),
        }
    }
}

impl<'a> From<AllocError> for Failure<'a> {
    ghost from_gives = { λ _ e. e ≡ failures.Memory };

    fn from(_error: AllocError) -> Failure<'a> {
        Failure::Memory
    }
}

impl<'a> From<InputError> for Failure<'a> {
    ghost from_gives = { of_input };

    fn from(error: InputError) -> Failure<'a> {
        match error {
            InputError::NotBase64 => Failure::NotBase64,
            InputError::OutOfMemory => Failure::Memory,
        }
    }
}

/// The error of arguments that could not be had: an allocation failure, or an argument that is no text and so of no command.
pub fn arguments_failure(error: io::Error) -> Failure<'static>
    ensures memory { error_kind error ≡ kinds.OutOfMemory → result ≡ failures.Memory }
    ensures other { error_kind error ≢ kinds.OutOfMemory → result ≡ failures.NotText }
{
    if error.kind() == io::ErrorKind::OutOfMemory {
        Failure::Memory
    } else {
        Failure::NotText
    }
}
