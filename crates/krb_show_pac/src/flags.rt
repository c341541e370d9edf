//! Flags of 32 bits and their names.

ghost use Rattle.std.specs.Prelude.{◌≡◌, ◌++◌, map, IfOk, OnOk};
ghost use Rattle.std.specs.List.{flat_map};
ghost use Rattle.krb_show_pac.specs.Flags.{flag_names, flags_word, name_if_set, named_flags_of, table};

use crate::Pac;
use byteorder::{BigEndian, ByteOrder};
use krb_show::{Form, Label, Page, Show, push_hex, push_token};
use std::alloc::{AllocError, Global};

/// What flags are of. Each is one table.
#[derive(Clone, Copy, PartialEq, Eq)]
pub(crate) enum FlagSet {
    /// Attributes of a group or of an extra identifier (MS-PAC 2.2.1 and 2.2.2).
    GroupAttributes,
    /// UserFlags of the logon information (MS-PAC 2.5).
    UserFlags,
    /// UserAccountControl of the logon information (MS-SAMR 2.2.1.12).
    UserAccountControl,
    /// Flags of UPN_DNS_INFO (MS-PAC 2.10).
    UpnDnsFlags,
    /// Flags of PAC_ATTRIBUTES_INFO (MS-PAC 2.14).
    PacAttributes,
}

/// MS-PAC 2.2.1 and 2.2.2, Attributes, which have five of them; the others, and their names, are those of TOKEN_GROUPS in winnt.h.
static GROUP_ATTRIBUTES: [(u32, &str); 9] = [
    (0x0000_0001, "SE_GROUP_MANDATORY"),
    (0x0000_0002, "SE_GROUP_ENABLED_BY_DEFAULT"),
    (0x0000_0004, "SE_GROUP_ENABLED"),
    (0x0000_0008, "SE_GROUP_OWNER"),
    (0x0000_0010, "SE_GROUP_USE_FOR_DENY_ONLY"),
    (0x0000_0020, "SE_GROUP_INTEGRITY"),
    (0x0000_0040, "SE_GROUP_INTEGRITY_ENABLED"),
    (0x2000_0000, "SE_GROUP_RESOURCE"),
    (0xc000_0000, "SE_GROUP_LOGON_ID"),
];

/// MS-PAC 2.5, UserFlags, A to L; the names are those of NTSecAPI.h.
static USER_FLAGS: [(u32, &str); 12] = [
    (0x0000_0001, "LOGON_GUEST"),
    (0x0000_0002, "LOGON_NOENCRYPTION"),
    (0x0000_0008, "LOGON_USED_LM_PASSWORD"),
    (0x0000_0020, "LOGON_EXTRA_SIDS"),
    (0x0000_0040, "LOGON_SUBAUTH_SESSION_KEY"),
    (0x0000_0080, "LOGON_SERVER_TRUST_ACCOUNT"),
    (0x0000_0100, "LOGON_NTLMV2_ENABLED"),
    (0x0000_0200, "LOGON_RESOURCE_GROUPS"),
    (0x0000_0400, "LOGON_PROFILE_PATH_RETURNED"),
    (0x0000_0800, "LOGON_NT_V2"),
    (0x0000_1000, "LOGON_LM_V2"),
    (0x0000_2000, "LOGON_NTLM_V2"),
];

/// MS-SAMR 2.2.1.12, USER_ACCOUNT codes.
static USER_ACCOUNT_CONTROL: [(u32, &str); 22] = [
    (0x0000_0001, "USER_ACCOUNT_DISABLED"),
    (0x0000_0002, "USER_HOME_DIRECTORY_REQUIRED"),
    (0x0000_0004, "USER_PASSWORD_NOT_REQUIRED"),
    (0x0000_0008, "USER_TEMP_DUPLICATE_ACCOUNT"),
    (0x0000_0010, "USER_NORMAL_ACCOUNT"),
    (0x0000_0020, "USER_MNS_LOGON_ACCOUNT"),
    (0x0000_0040, "USER_INTERDOMAIN_TRUST_ACCOUNT"),
    (0x0000_0080, "USER_WORKSTATION_TRUST_ACCOUNT"),
    (0x0000_0100, "USER_SERVER_TRUST_ACCOUNT"),
    (0x0000_0200, "USER_DONT_EXPIRE_PASSWORD"),
    (0x0000_0400, "USER_ACCOUNT_AUTO_LOCKED"),
    (0x0000_0800, "USER_ENCRYPTED_TEXT_PASSWORD_ALLOWED"),
    (0x0000_1000, "USER_SMARTCARD_REQUIRED"),
    (0x0000_2000, "USER_TRUSTED_FOR_DELEGATION"),
    (0x0000_4000, "USER_NOT_DELEGATED"),
    (0x0000_8000, "USER_USE_DES_KEY_ONLY"),
    (0x0001_0000, "USER_DONT_REQUIRE_PREAUTH"),
    (0x0002_0000, "USER_PASSWORD_EXPIRED"),
    (0x0004_0000, "USER_TRUSTED_TO_AUTHENTICATE_FOR_DELEGATION"),
    (0x0008_0000, "USER_NO_AUTH_DATA_REQUIRED"),
    (0x0010_0000, "USER_PARTIAL_SECRETS_ACCOUNT"),
    (0x0020_0000, "USER_USE_AES_KEYS"),
];

/// MS-PAC 2.10, Flags, U and S; the names are those of Samba's krb5pac.idl.
static UPN_DNS_FLAGS: [(u32, &str); 2] = [
    (0x0000_0001, "PAC_UPN_DNS_FLAG_CONSTRUCTED"),
    (0x0000_0002, "PAC_UPN_DNS_FLAG_HAS_SAM_NAME_AND_SID"),
];

/// MS-PAC 2.14, Flags.
static PAC_ATTRIBUTES: [(u32, &str); 2] = [
    (0x0000_0001, "PAC_WAS_REQUESTED"),
    (0x0000_0002, "PAC_WAS_GIVEN_IMPLICITLY"),
];

/// The table of these flags.
#[tactic(auto, unfolding(crate::specs::Flags::table))]
fn rows(set: FlagSet) -> &'static [(u32, &'static str)]
    ensures { map (λ row. (row.0, row.1.now)) result.now ≡ table set }
{
    match set {
        FlagSet::GroupAttributes => &GROUP_ATTRIBUTES,
        FlagSet::UserFlags => &USER_FLAGS,
        FlagSet::UserAccountControl => &USER_ACCOUNT_CONTROL,
        FlagSet::UpnDnsFlags => &UPN_DNS_FLAGS,
        FlagSet::PacAttributes => &PAC_ATTRIBUTES,
    }
}

/// Appends a blank and a name, where all bits of a value are set in a number.
fn push_if_set(note: &mut Vec<u8>, number: u32, value: u32, name: &str) -> Result<(), AllocError>
    ensures { OnOk result (note.new.items ≡ note.old.items ++ name_if_set number (value, name.now)) }
{
    if number & value == value {
        note.push(b' ')?;
        note.extend_from_slice(name.as_bytes())?;
    }
    Ok(())
}

/// Appends the names of the flags that are set among these, each behind a blank, in their order.
fn push_names(
    note: &mut Vec<u8>,
    number: u32,
    rows: &[(u32, &'static str)],
) -> Result<(), AllocError>
    ensures { OnOk result (note.new.items ≡ note.old.items ++ flat_map (λ row. name_if_set number (row.0, row.1.now)) rows.now) }
{
    for row in rows {
        push_if_set(note, number, row.0, row.1)?;
    }
    Ok(())
}

/// The names of the flags that are set, each behind a blank, in the order of their table.
fn names_of(alloc: Global, set: FlagSet, number: u32) -> Result<Vec<u8>, AllocError>
    ensures { IfOk result (λ note. note.items ≡ flag_names (table set) number) }
{
    let mut note = Vec::new(alloc);
    push_names(&mut note, number, rows(set))?;
    Ok(note)
}

/// `0x` and eight digits, the highest first.
fn flags_word(alloc: Global, number: u32) -> Result<Vec<u8>, AllocError>
    ensures { IfOk result (λ word. word.items ≡ flags_word number) }
{
    let mut octets = [0u8; 4];
    BigEndian::write_u32(&mut octets, number);
    let mut word = Vec::new(alloc);
    word.extend_from_slice(b"0x")?;
    push_hex(&mut word, &octets)?;
    Ok(word)
}

/// Flags of 32 bits.
#[derive(Drop)]
pub(crate) struct Flags {
    pub(crate) set: FlagSet,
    pub(crate) number: u32,
}

/// The number in hexadecimal, and the names of the flags that are set.
impl Show<Pac> for Flags {
    ghost shows = { λ label v. named_flags_of (table v.set) label v.number };

    fn show(&self, alloc: Global, label: &Label, page: &mut Page) -> Result<(), AllocError> {
        let note = names_of(alloc, self.set, self.number)?;
        let word = flags_word(alloc, self.number)?;
        push_token(alloc, Form::Flags, label, word, note, page)
    }
}
