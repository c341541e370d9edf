//! One entry.

ghost use Rattle.std.specs.Prelude.{◌≡◌};
ghost use Rattle.krb_files.specs.FieldReading.{Gives};
ghost use Rattle.krb_files.specs.KeytabReading.{entry_in, kvno_of};

use crate::fields::{
    ComponentsView, FieldError, LengthSize, PrincipalView, counted_at, principal_at, u8_at, u16_at,
    u32_at,
};
use byteorder::{BigEndian, ByteOrder};
use std::marker::Model;

/// An entry of a keytab that the caller holds: a principal's key.
#[derive(Drop)]
pub struct EntryView<'a> {
    principal: PrincipalView<'a>,
    name_type: u32,
    timestamp: u32,
    kvno: u32,
    etype: u16,
    key: &'a [u8],
}

impl<'a> Model for EntryView<'a> {
    ghost use Rattle.krb_files.specs.Entry.{Entry};

    ghost Value = { Entry };

    ghost view = { λ e. record {
      principal = e.principal;
      name_type = e.name_type;
      timestamp = e.timestamp;
      kvno = e.kvno;
      etype = e.etype;
      key = e.key.now;
    } };
}

impl<'a> EntryView<'a> {
    /// The principal.
    pub fn principal(&self) -> &PrincipalView<'a>
        ensures { result.now ≡ self.now.principal }
    {
        &self.principal
    }

    /// The octets of the principal's realm.
    pub fn realm(&self) -> &'a [u8]
        ensures { result.now ≡ self.now.principal.realm }
    {
        self.principal.realm()
    }

    /// The components of the principal's name, in their order.
    pub fn components(&self) -> ComponentsView<'a>
        ensures { result ≡ self.now.principal.components }
    {
        self.principal.components()
    }

    /// The type of the principal's name (RFC 4120, 6.2).
    pub fn name_type(&self) -> u32
        ensures { result ≡ self.now.name_type }
    {
        self.name_type
    }

    /// When the key was written, in seconds since 1970.
    pub fn timestamp(&self) -> u32
        ensures { result ≡ self.now.timestamp }
    {
        self.timestamp
    }

    /// The version of the key: the number of 32 bits, where the record has one that is not 0, else the number of 8 bits.
    pub fn kvno(&self) -> u32
        ensures { result ≡ self.now.kvno }
    {
        self.kvno
    }

    /// The encryption type of the key.
    pub fn etype(&self) -> u16
        ensures { result ≡ self.now.etype }
    {
        self.etype
    }

    /// The octets of the key.
    pub fn key(&self) -> &'a [u8]
        ensures { result.now ≡ self.now.key }
    {
        self.key
    }
}

/// The version of a key: that of 32 bits at the front of what follows the entry's other fields, where there are four octets and
/// they are not 0, else that of 8 bits.
fn kvno(short: u8, rest: &[u8]) -> u32
    ensures { result ≡ kvno_of short rest.now }
{
    if rest.len() < 4 {
        return u32::from(short);
    }
    let number = BigEndian::read_u32(rest);
    if number == 0 {
        return u32::from(short);
    }
    number
}

/// The entry in a record. The error is that of the first field that runs past the record's end.
#[tactic(auto, unfolding(crate::specs::KeytabReading::entry_in))]
pub(crate) fn entry_of(body: &[u8]) -> Result<EntryView<'_>, FieldError>
    ensures { Gives (λ e. e) result (entry_in body.now) }
{
    let (principal, rest) = principal_at(LengthSize::Two, body)?;
    let (name_type, rest) = u32_at(rest)?;
    let (timestamp, rest) = u32_at(rest)?;
    let (short, rest) = u8_at(rest)?;
    let (etype, rest) = u16_at(rest)?;
    let (key, rest) = counted_at(LengthSize::Two, rest)?;
    Ok(EntryView {
        principal,
        name_type,
        timestamp,
        kvno: kvno(short, rest),
        etype,
        key,
    })
}
