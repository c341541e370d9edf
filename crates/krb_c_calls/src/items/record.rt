//! Items as C has them.

ghost use Rattle.std.specs.Prelude.{◌≡◌};
ghost use Rattle.krb_c_calls.specs.Items.{form_number, kind_number, leaf_number, name_number, node_number, record_of, registry_number, role_number};

use krb_registry::Kind;
use krb_schema::{Form, Item, Leaf, Node, Role, number_of_name};

/// `krb_item` of `krb.h`: an element, or where one begins or ends. 48 octets, with no pointer in them.
#[repr(C)]
#[derive(Clone, Copy)]
pub struct ItemRecord {
    /// How many octets of the input stand before its content.
    pub offset: usize,
    /// How many octets its content has.
    pub size: usize,
    /// 1 an element without elements, 2 where one with elements begins, 3 where it ends.
    pub form: u32,
    /// The number of its variant of `Leaf` or of `Node`, from 1 on.
    pub kind: u32,
    /// The number of its name; 4294967295 where it has none.
    pub name: u32,
    /// The number of the variant of `Kind` whose numbers it has, from 0 on; -1 where these have no names.
    pub registry: i32,
    /// How many elements it stands in.
    pub depth: u32,
    /// The octet of its tag.
    pub tag: u32,
    /// The number of its variant of `Role`, from 0 on.
    pub role: u32,
    /// 0.
    pub reserved: u32,
}

/// All zeros.
pub(crate) const NO_ITEM: ItemRecord = ItemRecord {
    offset: 0,
    size: 0,
    form: 0,
    kind: 0,
    name: 0,
    registry: 0,
    depth: 0,
    tag: 0,
    role: 0,
    reserved: 0,
};

fn leaf_number(leaf: Leaf) -> u32
    ensures { result ≡ leaf_number leaf }
{
    match leaf {
        Leaf::Integer => 1,
        Leaf::Unsigned => 2,
        Leaf::Number(_) => 3,
        Leaf::Microseconds => 4,
        Leaf::Flags => 5,
        Leaf::Bits => 6,
        Leaf::Text => 7,
        Leaf::Component => 8,
        Leaf::Time => 9,
        Leaf::Octets => 10,
        Leaf::Secret => 11,
        Leaf::Cipher => 12,
        Leaf::Truth => 13,
        Leaf::Identifier => 14,
        Leaf::Any => 15,
    }
}

fn node_number(node: Node) -> u32
    ensures { result ≡ node_number node }
{
    match node {
        Node::Struct => 1,
        Node::List => 2,
        Node::FilledList => 3,
        Node::Wrap => 4,
    }
}

fn form_number(form: Form) -> u32
    ensures { result ≡ form_number form }
{
    match form {
        Form::Leaf(_) => 1,
        Form::Begin(_) => 2,
        Form::End(_) => 3,
    }
}

fn kind_number(form: Form) -> u32
    ensures { result ≡ kind_number form }
{
    match form {
        Form::Leaf(leaf) => leaf_number(leaf),
        Form::Begin(node) | Form::End(node) => node_number(node),
    }
}

/// The number of the variant of `Kind`, from 0 on, whose numbers have names; -1 of none.
pub fn registry_number(registry: Option<Kind>) -> i32
    ensures { result ≡ registry_number registry }
{
    let Some(kind) = registry else {
        return -1;
    };
    match kind {
        Kind::EncryptionType => 0,
        Kind::ChecksumType => 1,
        Kind::NameType => 2,
        Kind::MessageType => 3,
        Kind::ErrorCode => 4,
        Kind::PaDataType => 5,
        Kind::AuthorizationDataType => 6,
        Kind::AddressType => 7,
        Kind::TransitedEncodingType => 8,
        Kind::LastRequestType => 9,
        Kind::TicketFlag => 10,
        Kind::KdcOption => 11,
        Kind::ApOption => 12,
        Kind::KeyUsage => 13,
        Kind::PacBufferType => 14,
        Kind::GssFlag => 15,
        Kind::NegotiationState => 16,
        Kind::ContextFlag => 17,
        Kind::TokenFlag => 18,
    }
}

/// The number of the variant of `Role`, from 0 on.
pub fn role_number(role: Role) -> u32
    ensures { result ≡ role_number role }
{
    match role {
        Role::None => 0,
        Role::AuthorizationData => 1,
        Role::Checksum => 2,
        Role::PrefixedMessage => 3,
        Role::MechanismToken => 4,
        Role::MechanismListMic => 5,
        Role::Key => 6,
        Role::EncTicketPart => 7,
        Role::EncAsRepPart => 8,
        Role::EncTgsRepPart => 9,
        Role::Authenticator => 10,
        Role::RequestAuthorizationData => 11,
        Role::EncApRepPart => 12,
        Role::EncKrbPrivPart => 13,
        Role::EncKrbCredPart => 14,
        Role::PaEncTsEnc => 15,
        Role::Salt => 16,
        Role::ClientRealm => 17,
        Role::ClientName => 18,
        Role::ServerRealm => 19,
        Role::ServerName => 20,
    }
}

fn name_number(name: &str) -> u32
    ensures { result ≡ name_number name.now }
{
    match number_of_name(name) {
        Some(number) => number.min(u32::MAX as usize) as u32,
        None => u32::MAX,
    }
}

/// An item as C has it.
pub fn record_of(item: Item) -> ItemRecord
    ensures { result ≡ record_of item }
{
    ItemRecord {
        offset: item.offset,
        size: item.size,
        form: form_number(item.form),
        kind: kind_number(item.form),
        name: name_number(item.name.text),
        registry: registry_number(item.name.registry),
        depth: item.depth as u32,
        tag: item.tag as u32,
        role: role_number(item.name.role),
        reserved: 0,
    }
}
