//! Tokens.

ghost use Rattle.std.specs.Prelude.{◌≡◌, ℕ, Bool, true, false, Option, None, Some, List, [], ◌∷◌, ◌++◌, map, take, length, OnOk, OnErr};
ghost use Rattle.krb_schema.specs.declared.shape.Role.TheVariants as roles;
ghost use Rattle.krb_show.specs.Tokens.{Label, Token, item_of, leaf, mark, name_token, noted, number_token, placed, Begins, adds};

use krb_message_fields::places::Place;
use krb_registry::Kind;
use krb_schema::Role;
use std::alloc::{AllocError, Global};
use std::marker::Model;

/// What a token is.
#[derive(Clone, Copy, PartialEq, Eq)]
pub enum Form {
    /// A struct begins: its fields follow, up to its `StructEnd`.
    Struct,
    /// The struct ends that began last.
    StructEnd,
    /// A list begins: its items follow, up to its `ListEnd`. The octets are their number, in decimal.
    List,
    /// The list ends that began last.
    ListEnd,
    /// A number or a truth value: the octets are its digits, or `true` or `false`. The note is the number's name, if it has one.
    Number,
    /// Flags: the octets are `0x` and digits. The note has the names of the flags that are set.
    Flags,
    /// A word that has no blanks, as a time.
    Word,
    /// An object identifier: the octets are its dotted numbers. The note is its name, if it has one.
    Identifier,
    /// A text of the input: any octets.
    Text,
    /// Octets of the input.
    Octets,
    /// Octets of the input that are a key, a password or a PIN.
    Secret,
    /// Octets of the input that are encrypted (RFC 4120, 5.2.9), or in the clear where their encryption type is 0 (RFC 4120, 5.8.1).
    Cipher,
}

/// What a value is called, what a number in it is of, and what programs do with it.
#[derive(Drop)]
pub struct Label<'l> {
    /// The name.
    pub text: &'l str,
    /// What its numbers are of, where they have names; of the octets of a PAC's buffer the numbers of types of buffers.
    pub kind: Option<Kind>,
    /// What programs do with it.
    pub role: Role,
    /// Whether it is an item of a list.
    pub is_item: bool,
}

impl<'l> Model for Label<'l> {
    ghost Value = { Label };

    ghost view = { λ l. record { text = l.text.now; kind = l.kind; role = l.role; is_item = l.is_item } };
}

impl<'l> Label<'l> {
    /// The label of a field with this name, whose numbers have no names.
    pub fn new(text: &'l str) -> Label<'l>
        ensures { result ≡ record { text = text.now; kind = None; role = roles.None; is_item = false } }
    {
        Label {
            text,
            kind: None,
            role: Role::None,
            is_item: false,
        }
    }

    /// The label of a field with this name, whose numbers are of this kind.
    pub fn of_kind(text: &'l str, kind: Kind) -> Label<'l>
        ensures { result ≡ record { text = text.now; kind = Some kind; role = roles.None; is_item = false } }
    {
        Label {
            text,
            kind: Some(kind),
            role: Role::None,
            is_item: false,
        }
    }

    /// The label of an item of a list with this label.
    pub fn item(&self) -> Label<'l>
        ensures { result ≡ item_of self.now }
    {
        Label {
            text: self.text,
            kind: self.kind,
            role: self.role,
            is_item: true,
        }
    }
}

/// A leaf of a value, or where a struct or a list begins or ends.
#[derive(Drop)]
pub struct Token {
    form: Form,
    text: Vec<u8>,
    kind: Option<Kind>,
    role: Role,
    is_item: bool,
    octets: Vec<u8>,
    note: Vec<u8>,
    number: Option<i64>,
    components: Vec<Vec<u8>>,
    place: Option<Place>,
}

impl Model for Token {
    ghost Value = { Token };

    ghost view = { λ t. record {
      form = t.form;
      label = record { text = t.text.items; kind = t.kind; role = t.role; is_item = t.is_item };
      octets = t.octets.items;
      note = t.note.items;
      number = t.number;
      components = map (λ c. c.items) t.components.items;
      place = t.place;
    } };
}

impl Token {
    /// A word under the same label, which stands for it and has its place.
    pub fn with_word(self, alloc: Global, word: Vec<u8>) -> Token
        ensures { result ≡ record (leaf Form.Word self.label word.items) { place = self.place } }
    {
        let Token {
            form: _,
            text,
            kind,
            role,
            is_item,
            octets: _,
            note: _,
            number: _,
            components: _,
            place,
        } = self;
        Token {
            form: Form::Word,
            text,
            kind,
            role,
            is_item,
            octets: word,
            note: Vec::new(alloc),
            number: None,
            components: Vec::new(alloc),
            place,
        }
    }

    /// Gives it this place.
    pub(crate) fn set_place(&mut self, place: Place)
        ensures { self.new ≡ placed place self.old }
    {
        self.place = Some(place);
    }

    /// What it is.
    pub fn form(&self) -> Form
        ensures { result ≡ self.now.form }
    {
        self.form
    }

    /// What it is called.
    pub fn text(&self) -> &[u8]
        ensures { result.now ≡ self.now.label.text }
    {
        self.text.as_slice()
    }

    /// What its numbers are of, where they have names.
    pub fn kind(&self) -> Option<Kind>
        ensures { result ≡ self.now.label.kind }
    {
        self.kind
    }

    /// What programs do with it.
    pub fn role(&self) -> Role
        ensures { result ≡ self.now.label.role }
    {
        self.role
    }

    /// Whether it is an item of a list.
    pub fn is_item(&self) -> bool
        ensures { result ≡ self.now.label.is_item }
    {
        self.is_item
    }

    /// What it holds, which `Form` says.
    pub fn octets(&self) -> &[u8]
        ensures { result.now ≡ self.now.octets }
    {
        self.octets.as_slice()
    }

    /// What stands beside it: names, each behind a blank.
    pub fn note(&self) -> &[u8]
        ensures { result.now ≡ self.now.note }
    {
        self.note.as_slice()
    }

    /// The number that it is, if it is one that fits.
    pub fn number(&self) -> Option<i64>
        ensures { result ≡ self.now.number }
    {
        self.number
    }

    /// The components of the principal's name that it is (RFC 4120, 5.2.2); none if it is no name.
    pub fn components(&self) -> &[Vec<u8>]
        ensures { map (λ c. c.items) result.now ≡ self.now.components }
    {
        self.components.as_slice()
    }

    /// The place of the content of the element that it is of, in the octets in which that element
    /// stands; of what was decrypted these are the decrypted octets. `None` if it is of no element,
    /// or if the page was made without places.
    pub fn place(&self) -> Option<Place>
        ensures { result ≡ self.now.place }
    {
        self.place
    }
}

/// Tokens in their order.
pub type Page = Vec<Token>;

/// Appends a token with this number and these components.
fn push_whole(
    alloc: Global,
    form: Form,
    label: &Label,
    octets: Vec<u8>,
    note: Vec<u8>,
    number: Option<i64>,
    components: Vec<Vec<u8>>,
    page: &mut Page,
) -> Result<(), AllocError>
    ensures ok { OnOk result (adds (record {
      form = form;
      label = label.now;
      octets = octets.items;
      note = note.items;
      number = number;
      components = map (λ c. c.items) components.items;
      place = None;
    }) page.old.items page.new.items) }
    ensures kept { OnOk result (Begins page.old.items page.new.items) }
    ensures err { OnErr result (page.new.items ≡ page.old.items) }
{
    let mut text = Vec::with_capacity(alloc, label.text.len())?;
    text.extend_from_slice(label.text.as_bytes())?;
    page.push(Token {
        form,
        text,
        kind: label.kind,
        role: label.role,
        is_item: label.is_item,
        octets,
        note,
        number,
        components,
        place: None,
    })?;
    Ok(())
}

/// Appends a token that is no number and no name.
pub fn push_token(
    alloc: Global,
    form: Form,
    label: &Label,
    octets: Vec<u8>,
    note: Vec<u8>,
    page: &mut Page,
) -> Result<(), AllocError>
    ensures ok { OnOk result (adds (noted form label.now octets.items note.items) page.old.items page.new.items) }
    ensures kept { OnOk result (Begins page.old.items page.new.items) }
    ensures err { OnErr result (page.new.items ≡ page.old.items) }
{
    push_whole(
        alloc,
        form,
        label,
        octets,
        note,
        None,
        Vec::new(alloc),
        page,
    )
}

/// Appends a number with its digits.
pub(crate) fn push_number(
    alloc: Global,
    label: &Label,
    number: i64,
    digits: Vec<u8>,
    note: Vec<u8>,
    page: &mut Page,
) -> Result<(), AllocError>
    ensures ok { OnOk result (adds (number_token label.now number digits.items note.items) page.old.items page.new.items) }
    ensures kept { OnOk result (Begins page.old.items page.new.items) }
    ensures err { OnErr result (page.new.items ≡ page.old.items) }
{
    push_whole(
        alloc,
        Form::Number,
        label,
        digits,
        note,
        Some(number),
        Vec::new(alloc),
        page,
    )
}

/// Appends a principal's name: its text, and its components.
pub(crate) fn push_name(
    alloc: Global,
    label: &Label,
    text: Vec<u8>,
    components: Vec<Vec<u8>>,
    page: &mut Page,
) -> Result<(), AllocError>
    ensures ok { OnOk result (adds (name_token label.now text.items (map (λ c. c.items) components.items)) page.old.items page.new.items) }
    ensures kept { OnOk result (Begins page.old.items page.new.items) }
    ensures err { OnErr result (page.new.items ≡ page.old.items) }
{
    push_whole(
        alloc,
        Form::Text,
        label,
        text,
        Vec::new(alloc),
        None,
        components,
        page,
    )
}

/// Appends a token that holds nothing.
pub fn push_mark(
    alloc: Global,
    form: Form,
    label: &Label,
    page: &mut Page,
) -> Result<(), AllocError>
    ensures ok { OnOk result (adds (mark form label.now) page.old.items page.new.items) }
    ensures kept { OnOk result (Begins page.old.items page.new.items) }
    ensures err { OnErr result (page.new.items ≡ page.old.items) }
{
    push_token(alloc, form, label, Vec::new(alloc), Vec::new(alloc), page)
}
