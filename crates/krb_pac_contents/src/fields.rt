//! What the logon information holds, field by field.

ghost use Rattle.std.specs.Prelude.{◌≡◌};
ghost use Rattle.krb_pac_contents.specs.Fields.{logon_time, logoff_time, kick_off_time, password_last_set, password_can_change, password_must_change, last_successful_logon, last_failed_logon, logon_count, bad_password_count, user_id, primary_group_id, group_count, user_flags, user_account_control, sub_auth_status, failed_logon_count, reserved3, extra_sid_count, resource_group_count, effective_name, full_name, logon_script, profile_path, home_directory, home_directory_drive, logon_server, logon_domain_name, user_session_key, reserved1, groups, logon_domain_id, extra_sids, resource_group_domain_sid, resource_groups};

use crate::elements::{ExtraSids, Memberships, groups_in, sids_in};
use crate::logon::LogonView;
use crate::numbers::{u16_at, u32_at, u64_at};
use crate::sid::SidView;

impl<'a> LogonView<'a> {
    /// LogonTime: When the user logged on, as a FILETIME (MS-DTYP 2.3.3).
    pub fn logon_time(&self) -> u64
        ensures { result ≡ logon_time self.now }
    {
        u64_at(self.fixed, 0)
    }

    /// LogoffTime: When the logon ends, as a FILETIME (MS-DTYP 2.3.3).
    pub fn logoff_time(&self) -> u64
        ensures { result ≡ logoff_time self.now }
    {
        u64_at(self.fixed, 8)
    }

    /// KickOffTime: When the user is to be logged off by force, as a FILETIME (MS-DTYP 2.3.3).
    pub fn kick_off_time(&self) -> u64
        ensures { result ≡ kick_off_time self.now }
    {
        u64_at(self.fixed, 16)
    }

    /// PasswordLastSet: When the password was set; 0 where it never was, as a FILETIME (MS-DTYP 2.3.3).
    pub fn password_last_set(&self) -> u64
        ensures { result ≡ password_last_set self.now }
    {
        u64_at(self.fixed, 24)
    }

    /// PasswordCanChange: From when on the password may be changed, as a FILETIME (MS-DTYP 2.3.3).
    pub fn password_can_change(&self) -> u64
        ensures { result ≡ password_can_change self.now }
    {
        u64_at(self.fixed, 32)
    }

    /// PasswordMustChange: Until when the password has to be changed, as a FILETIME (MS-DTYP 2.3.3).
    pub fn password_must_change(&self) -> u64
        ensures { result ≡ password_must_change self.now }
    {
        u64_at(self.fixed, 40)
    }

    /// LastSuccessfulILogon: When the user last logged on, as a FILETIME (MS-DTYP 2.3.3).
    pub fn last_successful_logon(&self) -> u64
        ensures { result ≡ last_successful_logon self.now }
    {
        u64_at(self.fixed, 172)
    }

    /// LastFailedILogon: When a logon of the user last failed, as a FILETIME (MS-DTYP 2.3.3).
    pub fn last_failed_logon(&self) -> u64
        ensures { result ≡ last_failed_logon self.now }
    {
        u64_at(self.fixed, 180)
    }

    /// LogonCount: How often the user has logged on.
    pub fn logon_count(&self) -> u16
        ensures { result ≡ logon_count self.now }
    {
        u16_at(self.fixed, 96)
    }

    /// BadPasswordCount: How often in a row a wrong password was given.
    pub fn bad_password_count(&self) -> u16
        ensures { result ≡ bad_password_count self.now }
    {
        u16_at(self.fixed, 98)
    }

    /// UserId: The relative identifier of the account; 0 where the user's SID is among the extra ones.
    pub fn user_id(&self) -> u32
        ensures { result ≡ user_id self.now }
    {
        u32_at(self.fixed, 100)
    }

    /// PrimaryGroupId: The relative identifier of the primary group.
    pub fn primary_group_id(&self) -> u32
        ensures { result ≡ primary_group_id self.now }
    {
        u32_at(self.fixed, 104)
    }

    /// GroupCount: How many groups there are.
    pub fn group_count(&self) -> u32
        ensures { result ≡ group_count self.now }
    {
        u32_at(self.fixed, 108)
    }

    /// UserFlags: Flags of the logon; bit 5 says that there are extra SIDs, bit 9 resource groups.
    pub fn user_flags(&self) -> u32
        ensures { result ≡ user_flags self.now }
    {
        u32_at(self.fixed, 116)
    }

    /// UserAccountControl: Flags of the account (MS-SAMR 2.2.1.12).
    pub fn user_account_control(&self) -> u32
        ensures { result ≡ user_account_control self.now }
    {
        u32_at(self.fixed, 164)
    }

    /// SubAuthStatus: What a sub-authentication package answered.
    pub fn sub_auth_status(&self) -> u32
        ensures { result ≡ sub_auth_status self.now }
    {
        u32_at(self.fixed, 168)
    }

    /// FailedILogonCount: How many logons failed since the last that succeeded.
    pub fn failed_logon_count(&self) -> u32
        ensures { result ≡ failed_logon_count self.now }
    {
        u32_at(self.fixed, 188)
    }

    /// Reserved3: Reserved.
    pub fn reserved3(&self) -> u32
        ensures { result ≡ reserved3 self.now }
    {
        u32_at(self.fixed, 192)
    }

    /// SidCount: How many extra SIDs there are.
    pub fn extra_sid_count(&self) -> u32
        ensures { result ≡ extra_sid_count self.now }
    {
        u32_at(self.fixed, 196)
    }

    /// ResourceGroupCount: How many resource groups there are.
    pub fn resource_group_count(&self) -> u32
        ensures { result ≡ resource_group_count self.now }
    {
        u32_at(self.fixed, 208)
    }

    /// EffectiveName: The name of the account, in UTF-16, little endian; `utf16_text` makes text of it.
    pub fn effective_name(&self) -> &'a [u8]
        ensures { result.now ≡ effective_name self.now }
    {
        self.names.effective_name
    }

    /// FullName: The full name of the user, in UTF-16, little endian; `utf16_text` makes text of it.
    pub fn full_name(&self) -> &'a [u8]
        ensures { result.now ≡ full_name self.now }
    {
        self.names.full_name
    }

    /// LogonScript: The path of the logon script, in UTF-16, little endian; `utf16_text` makes text of it.
    pub fn logon_script(&self) -> &'a [u8]
        ensures { result.now ≡ logon_script self.now }
    {
        self.names.logon_script
    }

    /// ProfilePath: The path of the roaming profile, in UTF-16, little endian; `utf16_text` makes text of it.
    pub fn profile_path(&self) -> &'a [u8]
        ensures { result.now ≡ profile_path self.now }
    {
        self.names.profile_path
    }

    /// HomeDirectory: The path of the home directory, in UTF-16, little endian; `utf16_text` makes text of it.
    pub fn home_directory(&self) -> &'a [u8]
        ensures { result.now ≡ home_directory self.now }
    {
        self.names.home_directory
    }

    /// HomeDirectoryDrive: The drive letter of the home directory, in UTF-16, little endian; `utf16_text` makes text of it.
    pub fn home_directory_drive(&self) -> &'a [u8]
        ensures { result.now ≡ home_directory_drive self.now }
    {
        self.names.home_directory_drive
    }

    /// LogonServer: The NetBIOS name of the KDC, in UTF-16, little endian; `utf16_text` makes text of it.
    pub fn logon_server(&self) -> &'a [u8]
        ensures { result.now ≡ logon_server self.now }
    {
        self.domain.logon_server
    }

    /// LogonDomainName: The NetBIOS name of the domain, in UTF-16, little endian; `utf16_text` makes text of it.
    pub fn logon_domain_name(&self) -> &'a [u8]
        ensures { result.now ≡ logon_domain_name self.now }
    {
        self.domain.logon_domain_name
    }

    /// UserSessionKey: The 16 octets of the session key of NTLM, zeros under Kerberos.
    pub fn user_session_key(&self) -> &'a [u8]
        ensures { result.now ≡ user_session_key self.now }
    {
        let (_, key) = self.fixed.split_at(120);
        let (key, _) = key.split_at(16);
        key
    }

    /// Reserved1: The 8 octets that are reserved.
    pub fn reserved1(&self) -> &'a [u8]
        ensures { result.now ≡ reserved1 self.now }
    {
        let (_, reserved) = self.fixed.split_at(156);
        let (reserved, _) = reserved.split_at(8);
        reserved
    }

    /// GroupIds: the groups of the domain that the account is in, as many as GroupCount says.
    pub fn groups(&self) -> Memberships<'a>
        ensures { result ≡ groups self.now }
    {
        groups_in(self.domain.groups)
    }

    /// LogonDomainId: the identifier of the domain, before which UserId, PrimaryGroupId and the groups have no meaning.
    pub fn logon_domain_id(&self) -> SidView<'a>
        ensures { result ≡ logon_domain_id self.now }
    {
        self.domain.logon_domain_id.again()
    }

    /// ExtraSids: identifiers of groups in other domains, and well-known ones, as many as SidCount says.
    pub fn extra_sids(&self) -> ExtraSids<'a>
        ensures { result ≡ extra_sids self.now }
    {
        sids_in(self.extra.elements, self.extra.sids)
    }

    /// ResourceGroupDomainSid: the identifier of the domain of the resource groups, where there is one.
    pub fn resource_group_domain_sid(&self) -> Option<SidView<'a>>
        ensures { result ≡ resource_group_domain_sid self.now }
    {
        match &self.resource.sid {
            Some(sid) => Some(sid.again()),
            None => None,
        }
    }

    /// ResourceGroupIds: the groups of the resource domain, as many as ResourceGroupCount says.
    pub fn resource_groups(&self) -> Memberships<'a>
        ensures { result ≡ resource_groups self.now }
    {
        groups_in(self.resource_groups.octets)
    }
}
