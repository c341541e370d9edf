//! Where in its elements an item stands.

ghost use Rattle.std.specs.Prelude.{◌≡◌, ◌∷◌, ◌++◌, [], map, OnOk};
ghost use Rattle.krb_schema.specs.declared.item.Item.{Item};
ghost use Rattle.krb_show.specs.Items.{Stand, is_in, is_in_list, label_of, named, nameless, numbered, popped, pushed, start};
ghost use Rattle.krb_show.specs.declared.rows.stand.Inside.TheVariants as inside;

use crate::Label;
use krb_schema::Item;
use std::alloc::{AllocError, Global};
use std::marker::Model;

/// What an item stands in: explicit tags and OCTET STRINGs that hold an element do not count.
#[derive(Clone, Copy, PartialEq, Eq)]
pub(crate) enum Inside {
    /// A SEQUENCE.
    Struct,
    /// A SEQUENCE OF.
    List,
    /// The components of a name.
    Names,
}

/// Whether the octets of keys and of passwords are shown.
#[derive(Clone, Copy, PartialEq, Eq)]
pub enum Secrets {
    /// They are shown.
    Shown,
    /// The word `hidden` stands in their place.
    Hidden,
}

/// Where an item stands: in what, the innermost last; the components of a name before it; the content of the INTEGER that stands last before it; and
/// whether secrets are shown.
#[derive(Drop)]
pub struct Stand<'o> {
    inside: Vec<Inside>,
    names: Vec<&'o [u8]>,
    number: &'o [u8],
    secrets: Secrets,
}

impl<'o> Model for Stand<'o> {
    ghost use Rattle.std.specs.Prelude.{map};
    ghost use Rattle.krb_show.specs.Items.{Stand};

    ghost Value = { Stand };

    ghost view = { λ s. record { inside = s.inside.items; names = map (λ n. n.now) s.names.items; number = s.number.now; secrets = s.secrets } };
}

impl<'o> Stand<'o> {
    /// Before the first item.
    pub fn new(alloc: Global, secrets: Secrets) -> Self
        ensures { result ≡ start secrets }
    {
        Stand {
            inside: Vec::new(alloc),
            names: Vec::new(alloc),
            number: &[],
            secrets,
        }
    }

    /// Whether it stands in this, innermost.
    pub(crate) fn is_in(&self, wanted: Inside) -> bool
        ensures { result ≡ is_in wanted self.now.inside }
    {
        match self.inside.last() {
            Some(inside) => *inside == wanted,
            None => false,
        }
    }

    /// The label of an item that stands here.
    pub(crate) fn label(&self, item: Item) -> Label<'static>
        ensures { result ≡ label_of self.now.inside item.name }
    {
        Label {
            text: item.name.text,
            kind: item.name.registry,
            role: item.name.role,
            is_item: self.is_in(Inside::List),
        }
    }

    /// Goes into this.
    pub(crate) fn push(&mut self, inside: Inside) -> Result<(), AllocError>
        ensures { OnOk result (self.new ≡ pushed inside self.old) }
    {
        self.inside.push(inside)?;
        Ok(())
    }

    /// Leaves what it stands in.
    pub(crate) fn pop(&mut self)
        ensures { self.new ≡ popped self.old }
    {
        let _left = self.inside.pop();
    }

    /// Keeps a component of a name.
    pub(crate) fn push_name(&mut self, component: &'o [u8]) -> Result<(), AllocError>
        ensures { OnOk result (self.new ≡ named component.now self.old) }
    {
        self.names.push(component)?;
        Ok(())
    }

    /// The components of the name that are kept.
    pub(crate) fn names(&self) -> &[&'o [u8]]
        ensures { map (λ n. n.now) result.now ≡ self.now.names }
    {
        self.names.as_slice()
    }

    /// Keeps no component.
    pub(crate) fn clear_names(&mut self)
        ensures { self.new ≡ nameless self.old }
    {
        self.names.clear();
    }

    /// The content of the INTEGER that stands last before.
    pub(crate) fn number(&self) -> &'o [u8]
        ensures { result.now ≡ self.now.number }
    {
        self.number
    }

    /// Whether secrets are shown.
    pub(crate) fn secrets(&self) -> Secrets
        ensures { result ≡ self.now.secrets }
    {
        self.secrets
    }

    /// Keeps the content of an INTEGER.
    pub(crate) fn set_number(&mut self, content: &'o [u8])
        ensures { self.new ≡ numbered content.now self.old }
    {
        self.number = content;
    }
}
