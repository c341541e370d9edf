//! What a schema is made of.

use krb_registry::Kind;

/// What an element without elements holds.
#[derive(Clone, Copy, PartialEq, Eq)]
pub enum Leaf {
    /// INTEGER (X.690, 8.3).
    Integer,
    /// INTEGER from 0 to 2^32 - 1 (RFC 4120, 5.2.4, UInt32).
    Unsigned,
    /// INTEGER that its standard fixes to this number, as pvno; any INTEGER is read, and another breaks the rule.
    Number(u8),
    /// INTEGER from 0 to 999999 (RFC 4120, 5.2.4, Microseconds); any INTEGER is read, and another breaks the rule.
    Microseconds,
    /// KerberosFlags: a BIT STRING (RFC 4120, 5.2.8).
    Flags,
    /// BIT STRING (X.690, 8.6).
    Bits,
    /// KerberosString: a GeneralString (RFC 4120, 5.2.1).
    Text,
    /// A component of a principal's name, a KerberosString (RFC 4120, 5.2.2).
    Component,
    /// KerberosTime: a GeneralizedTime (RFC 4120, 5.2.3).
    Time,
    /// OCTET STRING (X.690, 8.7).
    Octets,
    /// OCTET STRING: the octets of a key or a password, to be hidden (RFC 4120, 5.2.9).
    Secret,
    /// OCTET STRING: a ciphertext (RFC 4120, 5.2.9).
    Cipher,
    /// BOOLEAN (X.690, 8.2).
    Truth,
    /// OBJECT IDENTIFIER (X.690, 8.19).
    Identifier,
    /// Any element, whose content is not read.
    Any,
}

/// What programs do with the octets of an element that DER does not read further.
#[derive(Clone, Copy, PartialEq, Eq)]
pub enum Role {
    /// Nothing.
    None,
    /// Authorization data of the type that the number before says: of type 128 a PAC (RFC 4120, 7.5.4; MS-PAC, 2.3).
    AuthorizationData,
    /// A checksum of the type that the number before says: of type 32771 that of the GSS-API (RFC 4121, 4.1.1).
    Checksum,
    /// A message of Kerberos behind its length in four octets (MS-KKDCP, 2.2.2; RFC 4120, 7.2.2).
    PrefixedMessage,
    /// A token of a mechanism of the GSS-API (RFC 4178, 4.2.1).
    MechanismToken,
    /// A MIC of the list of mechanisms, a token of RFC 4121, 4.2.6.1, where the mechanism is Kerberos (RFC 4178, 5).
    MechanismListMic,
    /// The octets of a key of the encryption type that the number before says (RFC 4120, 5.2.9).
    Key,
    /// An EncryptedData of an EncTicketPart, under key usage 2 (RFC 4120, 5.3).
    EncTicketPart,
    /// An EncryptedData of an EncASRepPart, under key usage 3; some KDCs encrypt an EncTGSRepPart (RFC 4120, 5.4.2).
    EncAsRepPart,
    /// An EncryptedData of an EncTGSRepPart, under key usage 8 or 9 (RFC 4120, 5.4.2).
    EncTgsRepPart,
    /// An EncryptedData of an Authenticator, under key usage 11, or 7 in a request to a KDC (RFC 4120, 5.5.1).
    Authenticator,
    /// An EncryptedData of AuthorizationData in a request to a KDC, under key usage 4 or 5 (RFC 4120, 5.4.1).
    RequestAuthorizationData,
    /// An EncryptedData of an EncAPRepPart, under key usage 12 (RFC 4120, 5.5.2).
    EncApRepPart,
    /// An EncryptedData of an EncKrbPrivPart, under key usage 13 (RFC 4120, 5.7.1).
    EncKrbPrivPart,
    /// An EncryptedData of an EncKrbCredPart, under key usage 14, or in the clear under encryption type 0 (RFC 4120,
    /// 5.8.1).
    EncKrbCredPart,
    /// Pre-authentication data, in which an EncryptedData is that of a PA-ENC-TS-ENC, under key usage 1 (RFC 4120,
    /// 5.2.7.2).
    PaEncTsEnc,
    /// A salt (RFC 4120, 5.2.7.5).
    Salt,
    /// The realm of a client: with the client's name behind it its default salt (RFC 4120, 4).
    ClientRealm,
    /// The name of a client: its default salt with the realm before it, or in a request with that behind it.
    ClientName,
    /// The realm of a server: with the server's name behind it the default salt of its key.
    ServerRealm,
    /// The name of a server.
    ServerName,
}

/// What an element is called, and what a number or the flags in it are of.
#[derive(Clone, Copy, PartialEq, Eq)]
pub struct Name {
    /// The name that the standard gives the field or the type.
    pub text: &'static str,
    /// The registry of its numbers, if they have names.
    pub registry: Option<Kind>,
    /// What programs do with it.
    pub role: Role,
}

/// A field of a SEQUENCE.
#[derive(Clone, Copy)]
pub struct Field {
    /// The octet that it begins with; `None` for any that an element may begin with (X.690, 8.1.2.4).
    pub tag: Option<u8>,
    /// Whether this octet is an explicit tag around the element (X.690, 8.14), and not the element's own.
    pub wrapped: bool,
    /// Whether it is OPTIONAL: it is absent where the octets do not begin so.
    pub optional: bool,
    /// What it is called.
    pub name: Name,
    /// The row of its type.
    pub is: usize,
}

/// What the content of an OCTET STRING may be.
#[derive(Clone, Copy)]
pub struct Case {
    /// The number that the field before has, as 19 of PA-ETYPE-INFO2; `None` for any.
    pub behind: Option<u8>,
    /// What the content is called, as dhInfo of PA-PK-AS-REP; `None` where it is called as the OCTET STRING.
    pub name: Option<Name>,
    /// The row of the type of the content.
    pub is: usize,
}

/// The shape of a type.
#[derive(Clone, Copy)]
pub enum Shape {
    /// An element without elements, under this tag: its own, or an implicit one (X.690, 8.14).
    Leaf(u8, Leaf),
    /// An element of another row, under an explicit tag, as `[APPLICATION 10]`.
    Tagged(u8, usize),
    /// SEQUENCE of fields, in order: those from this one on, so many; under this tag, `30` or an implicit one.
    Sequence(u8, usize, usize),
    /// SEQUENCE OF this row, under this tag; and whether its standard wants one element or more. None are read, too, and break the rule.
    SequenceOf(u8, usize, bool),
    /// OCTET STRING whose content is one element, of the first of the cases from this one on, so many, that it can be; else plain octets.
    Holding(usize, usize),
    /// Any element.
    Any,
}

/// A schema: the shapes of types, the fields of SEQUENCEs, and what OCTET STRINGs hold. It is data, a row a type.
#[derive(Clone, Copy)]
pub struct Schema<'a> {
    /// The rows.
    pub shapes: &'a [Shape],
    /// The fields of the rows that are SEQUENCEs.
    pub fields: &'a [Field],
    /// The cases of the rows that are OCTET STRINGs.
    pub cases: &'a [Case],
}
