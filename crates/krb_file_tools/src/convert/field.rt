//! What the target of a conversion cannot hold, or holds in another way.

ghost use Rattle.std.specs.Prelude.{◌≡◌};
ghost use Rattle.krb_file_tools.specs.Fields.{name_of};

/// What a KRB-CRED or a credential cache has, and the other format has no place for; and what of a
/// KRB-CRED stands in a cache in another way, so that it does not come back as it was.
#[derive(Clone, Copy, PartialEq, Eq)]
pub enum Field {
    /// The version of the key of a KRB-CRED's enc-part (RFC 4120, 5.2.9).
    Kvno,
    /// A flag of a ticket past bit 31 (RFC 4120, 5.2.8).
    Flags,
    /// The nonce of an EncKrbCredPart (RFC 4120, 5.8.1).
    Nonce,
    /// Its timestamp.
    Timestamp,
    /// The microseconds of its timestamp.
    Usec,
    /// The address of the sender.
    SAddress,
    /// The address of the recipient.
    RAddress,
    /// That a KrbCredInfo has no srealm (RFC 4120, 5.8.1): the cache has the ticket's realm.
    NoSrealm,
    /// That a KrbCredInfo has no sname: the cache has the ticket's.
    NoSname,
    /// That a KrbCredInfo has no flags: the cache has 32 that are not set.
    NoFlags,
    /// The length of flags that are not 32 bits.
    FlagsLength,
    /// A time of 1970-01-01T00:00:00Z, which is absent in a cache.
    FirstSecond,
    /// A caddr of no address, which is absent in a cache.
    EmptyCaddr,
    /// A ticket that is in the cache as a configuration entry.
    AsConfiguration,
    /// A ticket that is in the cache as an entry that was removed.
    AsRemoved,
    /// A field of a cache's header, as the offset of the KDC's time.
    Header,
    /// The default principal of a cache, where it is not the client of the first credential.
    DefaultPrincipal,
    /// A configuration entry of a cache.
    Configuration,
    /// An entry of a cache that was removed and only stands in the file.
    Removed,
    /// A mark that a ticket is encrypted in the session key of another ticket.
    IsSkey,
    /// Authorization data of a credential.
    Authdata,
    /// The second ticket of a credential.
    SecondTicket,
}

impl Field {
    /// The name of the field: that of RFC 4120, or that of MIT Kerberos's "Credential cache file format".
    pub fn name(self) -> &'static str
        ensures { result.now ≡ name_of self }
    {
        match self {
            Field::Kvno => "kvno",
            Field::Flags => "flags past 31",
            Field::Nonce => "nonce",
            Field::Timestamp => "timestamp",
            Field::Usec => "usec",
            Field::SAddress => "s-address",
            Field::RAddress => "r-address",
            Field::NoSrealm => "absence of srealm",
            Field::NoSname => "absence of sname",
            Field::NoFlags => "absence of flags",
            Field::FlagsLength => "length of flags",
            Field::FirstSecond => "1970-01-01T00:00:00Z",
            Field::EmptyCaddr => "empty caddr",
            Field::AsConfiguration => "ticket as configuration entry",
            Field::AsRemoved => "ticket as removed entry",
            Field::Header => "header",
            Field::DefaultPrincipal => "default principal",
            Field::Configuration => "configuration entries",
            Field::Removed => "removed entries",
            Field::IsSkey => "is_skey",
            Field::Authdata => "authdata",
            Field::SecondTicket => "second_ticket",
        }
    }
}

/// What a conversion gives.
#[derive(Drop)]
pub struct Converted {
    /// The octets of the target.
    pub octets: Vec<u8>,
    /// What the source has and the target has no place for, or has in another way, each once, in
    /// the order of `Field`.
    pub left_out: Vec<Field>,
}
