//! What the program is asked to do.

use krb_accept::PacCheck;
use std::marker::Model;

/// What is written of a page.
#[derive(Clone, Copy, PartialEq, Eq)]
pub enum Output {
    /// Its indented lines.
    Text,
    /// A line of JSON: the option `--json`.
    Json,
    /// Its first line alone, which names the type: the option `--type`.
    Type,
    /// Its indented lines with places: the option `--places`.
    TextWithPlaces,
    /// A line of JSON with places: the options `--json` and `--places`.
    JsonWithPlaces,
}

/// Where keys are.
#[derive(Clone, Copy, PartialEq, Eq)]
pub enum SourceKind {
    /// A key, as a text: the option `--key`.
    Key,
    /// A file that holds a key as a text: the option `--key-file`.
    KeyFile,
    /// A keytab, by the name of its file: the option `--keytab`.
    Keytab,
}

/// A key, or the name of a file of keys.
#[derive(Drop)]
pub struct Source<'a> {
    /// What the text is.
    pub kind: SourceKind,
    /// The key, or the name of the file.
    pub text: &'a str,
}

impl<'a> Model for Source<'a> {
    ghost use Rattle.jolmurig_command.specs.Shows.{Source};

    ghost Value = { Source };

    ghost view = { λ s. record { kind = s.kind; text = s.text.now } };
}

/// The name of a file.
#[derive(Drop)]
pub struct FileName<'a> {
    /// The name.
    pub text: &'a str,
}

impl<'a> Model for FileName<'a> {
    ghost use Rattle.std.specs.Prelude.{ℕ, List};

    ghost Value = { List ℕ };

    ghost view = { λ n. n.text.now };
}

/// What is asked to be shown, and how.
#[derive(Drop)]
pub struct Show<'a> {
    /// The name of the type as which octets are read: the option `--as`.
    pub type_name: Option<&'a str>,
    /// Whether octets are shown as a tree of elements: the option `--tree`.
    pub is_tree: bool,
    /// What is written, where an option names it.
    pub output: Option<Output>,
    /// Whether the places of elements are written: the option `--places`.
    pub shows_places: bool,
    /// Whether the octets of keys are shown: the option `--show-keys`.
    pub shows_keys: bool,
    /// Whether all keys are tried that are found in what is opened: the option `--all-found-keys`.
    pub tries_all: bool,
    /// Where the keys are that open what is sealed.
    pub sources: Vec<Source<'a>>,
    /// The names of files that hold passwords: the option `--password-file`.
    pub password_files: Vec<FileName<'a>>,
    /// The name of the file that is read; standard input where there is none.
    pub file: Option<&'a str>,
    /// Whether an argument stands for what is read: the file, or `-`.
    pub is_named: bool,
}

impl<'a> Model for Show<'a> {
    ghost use Rattle.std.specs.Option.{option_copied};
    ghost use Rattle.jolmurig_command.specs.Shows.{Show};

    ghost Value = { Show };

    ghost view = { λ s. record {
      type_name = option_copied s.type_name;
      is_tree = s.is_tree;
      output = s.output;
      shows_places = s.shows_places;
      shows_keys = s.shows_keys;
      tries_all = s.tries_all;
      sources = s.sources.items;
      password_files = s.password_files.items;
      file = option_copied s.file;
      is_named = s.is_named;
    } };
}

/// A format of tickets with their keys.
#[derive(Clone, Copy, PartialEq, Eq)]
pub enum Format {
    /// A KRB-CRED (RFC 4120, 5.8) whose part is in the clear: `kirbi`.
    Kirbi,
    /// A credential cache of MIT Kerberos: `ccache`.
    Ccache,
}

/// The name of a type.
#[derive(Drop)]
pub struct TypeName<'a> {
    /// The name.
    pub text: &'a str,
}

impl<'a> Model for TypeName<'a> {
    ghost use Rattle.std.specs.Prelude.{ℕ, List};

    ghost Value = { List ℕ };

    ghost view = { λ n. n.text.now };
}

/// Which way a message goes through a proxy in front of a KDC (MS-KKDCP).
#[derive(Clone, Copy, PartialEq, Eq)]
pub enum Direction {
    /// From a client to a KDC: `request`.
    Request,
    /// From a KDC to a client: `reply`.
    Reply,
}

/// What a command without options is of.
#[derive(Drop)]
pub struct Operand<'a> {
    /// The name of the file that is read; standard input where there is none.
    pub file: Option<&'a str>,
}

impl<'a> Model for Operand<'a> {
    ghost use Rattle.std.specs.Prelude.{ℕ, List, Option};
    ghost use Rattle.std.specs.Option.{option_copied};

    ghost Value = { Option (List ℕ) };

    ghost view = { λ o. option_copied o.file };
}

/// The name of a server or of a realm, as a text.
#[derive(Drop)]
pub struct NameText<'a> {
    /// The text.
    pub text: &'a str,
}

impl<'a> Model for NameText<'a> {
    ghost use Rattle.std.specs.Prelude.{ℕ, List};

    ghost Value = { List ℕ };

    ghost view = { λ n. n.text.now };
}

/// What is asked about a token.
#[derive(Drop)]
pub struct Accept<'a> {
    /// The name of the service's keytab: the option `--keytab`.
    pub keytab: Option<&'a str>,
    /// The service's time, as a text: the option `--time`.
    pub time: Option<&'a str>,
    /// The skew, as a text: the option `--skew`.
    pub skew: Option<&'a str>,
    /// The names of the servers for which clients are let in: the options `--server`.
    pub servers: Vec<NameText<'a>>,
    /// The realms whose clients are let in: the options `--realm`.
    pub realms: Vec<NameText<'a>>,
    /// The hash of the service's channel bindings, as a text: the option `--bindings`.
    pub bindings: Option<&'a str>,
    /// What is done with the PAC: the option `--pac`.
    pub pac: Option<PacCheck>,
    /// Whether an AP-REQ with no frame is taken: the option `--bare`.
    pub is_bare: bool,
    /// Whether an authenticator with another checksum is taken: the option `--other-checksum`.
    pub takes_other: bool,
    /// The name of the file that is read; standard input where there is none.
    pub file: Option<&'a str>,
    /// Whether an argument stands for what is read: the file, or `-`.
    pub is_named: bool,
}

impl<'a> Model for Accept<'a> {
    ghost use Rattle.std.specs.Option.{option_copied};
    ghost use Rattle.jolmurig_command.specs.Accepts.{Accept};

    ghost Value = { Accept };

    ghost view = { λ a. record {
      keytab = option_copied a.keytab;
      time = option_copied a.time;
      skew = option_copied a.skew;
      servers = a.servers.items;
      realms = a.realms.items;
      bindings = option_copied a.bindings;
      pac = a.pac;
      is_bare = a.is_bare;
      takes_other = a.takes_other;
      file = option_copied a.file;
      is_named = a.is_named;
    } };
}

/// A page of the help.
#[derive(Clone, Copy, PartialEq, Eq)]
pub enum Topic {
    /// The program: its commands, and what is true of all of them.
    Program,
    /// `show`.
    Show,
    /// `check`.
    Check,
    /// `list`.
    List,
    /// `convert`.
    Convert,
    /// `proxy`.
    Proxy,
    /// `accept`.
    Accept,
}

/// What is asked for by the arguments.
#[derive(Drop)]
pub enum Command<'a> {
    /// A page of the help: the option `--help`, that of a command behind its name.
    Help(Topic),
    /// The version: the option `--version`.
    Version,
    /// What a file or standard input holds: `show`.
    Show(Show<'a>),
    /// Whether a file or standard input is of the type of this name: `check`.
    Check(TypeName<'a>, Operand<'a>),
    /// A line for each entry of a keytab or a credential cache, that of a file or of standard input: `list`.
    List(Operand<'a>),
    /// The tickets of a file or of standard input in another format: `convert`.
    Convert(Format, Operand<'a>),
    /// What a proxy passes on of the octets of a file or of standard input: `proxy`.
    Proxy(Direction, Operand<'a>),
    /// Whether a service lets the client of a token in: `accept`.
    Accept(Accept<'a>),
}
