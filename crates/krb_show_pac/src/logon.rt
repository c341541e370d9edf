//! The logon information (MS-PAC 2.5, KERB_VALIDATION_INFO).

ghost use Rattle.std.specs.Prelude.{◌≡◌, IfOk};
ghost use Rattle.krb_pac_contents.specs.Fields.{extra_sids, groups, resource_groups};
ghost use Rattle.krb_show.specs.Pages.{list_of};
ghost use Rattle.krb_show_pac.specs.Logon.{account_of, counts_of, domain_of, extra_of, extra_sid_of, membership_of, names_of, times_of, validation_info_of};

use crate::Pac;
use crate::flags::{FlagSet, Flags};
use crate::texts::{Name, SessionKey};
use crate::times::Moment;
use krb_der::Optional;
use krb_pac_contents::{LogonView, Membership, SidAndAttributes, SidView};
use krb_show::{Field, Label, Page, Show, ShowFields, show_fields, show_list, show_struct};
use std::alloc::{AllocError, Global};
use std::marker::PhantomData;

/// The items of a list, in their order.
impl<T: Show<Pac>> Show<Pac> for Vec<T> {
    ghost shows = { λ label v. list_of T.shows label v.items };

    fn show(&self, alloc: Global, label: &Label, page: &mut Page) -> Result<(), AllocError> {
        show_list(alloc, label, self.as_slice(), page)
    }
}

/// The fields of a group.
#[derive(Drop)]
struct MembershipFields {
    relative_id: u32,
    attributes: Flags,
}

/// A group of the account (MS-PAC 2.2.2, GROUP_MEMBERSHIP).
impl Show<Pac> for Membership {
    ghost shows = { membership_of };

    fn show(&self, alloc: Global, label: &Label, page: &mut Page) -> Result<(), AllocError> {
        let fields = MembershipFields {
            relative_id: self.relative_id,
            attributes: Flags {
                set: FlagSet::GroupAttributes,
                number: self.attributes,
            },
        };
        show_struct(
            alloc,
            label,
            &show_fields!(Pac; fields; "RelativeId" = relative_id, "Attributes" = attributes),
            page,
        )
    }
}

/// An extra identifier of the account (MS-PAC 2.2.1, KERB_SID_AND_ATTRIBUTES).
impl<'a> Show<Pac> for SidAndAttributes<'a> {
    ghost shows = { extra_sid_of };

    fn show(&self, alloc: Global, label: &Label, page: &mut Page) -> Result<(), AllocError> {
        let attributes = Flags {
            set: FlagSet::GroupAttributes,
            number: self.attributes,
        };
        let attributes = Field {
            label: Label::new("Attributes"),
            value: &attributes,
            shown: PhantomData::<Pac>,
        };
        show_struct(
            alloc,
            label,
            &(show_fields!(Pac; self; "Sid" = sid), attributes),
            page,
        )
    }
}

/// The times that the logon information begins with.
#[derive(Drop)]
struct TimesFields {
    logon_time: Moment,
    logoff_time: Moment,
    kick_off_time: Moment,
    password_last_set: Moment,
    password_can_change: Moment,
    password_must_change: Moment,
}

/// The times that the logon information begins with, lent for showing.
#[derive(Drop)]
struct Times<'s, 'a> {
    view: &'s LogonView<'a>,
}

impl<'s, 'a> ShowFields for Times<'s, 'a> {
    ghost shows = { λ f. times_of f.view.now };

    fn show_fields(&self, alloc: Global, page: &mut Page) -> Result<(), AllocError> {
        let view = self.view;
        let fields = TimesFields {
            logon_time: Moment {
                filetime: view.logon_time(),
            },
            logoff_time: Moment {
                filetime: view.logoff_time(),
            },
            kick_off_time: Moment {
                filetime: view.kick_off_time(),
            },
            password_last_set: Moment {
                filetime: view.password_last_set(),
            },
            password_can_change: Moment {
                filetime: view.password_can_change(),
            },
            password_must_change: Moment {
                filetime: view.password_must_change(),
            },
        };
        let fields = show_fields!(
            Pac; fields;
            "LogonTime" = logon_time,
            "LogoffTime" = logoff_time,
            "KickOffTime" = kick_off_time,
            "PasswordLastSet" = password_last_set,
            "PasswordCanChange" = password_can_change,
            "PasswordMustChange" = password_must_change
        );
        fields.show_fields(alloc, page)
    }
}

/// The names of the user and the paths.
#[derive(Drop)]
struct NamesFields<'a> {
    effective_name: Name<'a>,
    full_name: Name<'a>,
    logon_script: Name<'a>,
    profile_path: Name<'a>,
    home_directory: Name<'a>,
    home_directory_drive: Name<'a>,
}

/// The names of the user and the paths, lent for showing.
#[derive(Drop)]
struct Names<'s, 'a> {
    view: &'s LogonView<'a>,
}

impl<'s, 'a> ShowFields for Names<'s, 'a> {
    ghost shows = { λ f. names_of f.view.now };

    fn show_fields(&self, alloc: Global, page: &mut Page) -> Result<(), AllocError> {
        let view = self.view;
        let fields = NamesFields {
            effective_name: Name {
                octets: view.effective_name(),
            },
            full_name: Name {
                octets: view.full_name(),
            },
            logon_script: Name {
                octets: view.logon_script(),
            },
            profile_path: Name {
                octets: view.profile_path(),
            },
            home_directory: Name {
                octets: view.home_directory(),
            },
            home_directory_drive: Name {
                octets: view.home_directory_drive(),
            },
        };
        let fields = show_fields!(
            Pac; fields;
            "EffectiveName" = effective_name,
            "FullName" = full_name,
            "LogonScript" = logon_script,
            "ProfilePath" = profile_path,
            "HomeDirectory" = home_directory,
            "HomeDirectoryDrive" = home_directory_drive
        );
        fields.show_fields(alloc, page)
    }
}

/// The groups of the account, in their order.
fn groups_of(alloc: Global, view: &LogonView) -> Result<Vec<Membership>, AllocError>
    ensures { IfOk result (λ v. v.items ≡ groups view.now) }
{
    view.groups().collect(alloc)
}

/// The extra identifiers, in their order.
fn extra_sids_of<'a>(
    alloc: Global,
    view: &LogonView<'a>,
) -> Result<Vec<SidAndAttributes<'a>>, AllocError>
    ensures { IfOk result (λ v. v.items ≡ extra_sids view.now) }
{
    view.extra_sids().collect(alloc)
}

/// The resource groups, in their order.
fn resource_groups_of(alloc: Global, view: &LogonView) -> Result<Vec<Membership>, AllocError>
    ensures { IfOk result (λ v. v.items ≡ resource_groups view.now) }
{
    view.resource_groups().collect(alloc)
}

/// Counts of logons, and which account it is, in which groups.
#[derive(Drop)]
struct CountsFields {
    logon_count: u32,
    bad_password_count: u32,
    user_id: u32,
    primary_group_id: u32,
    groups: Vec<Membership>,
}

/// Counts of logons, and which account it is, in which groups, lent for showing.
#[derive(Drop)]
struct Counts<'s, 'a> {
    view: &'s LogonView<'a>,
}

impl<'s, 'a> ShowFields for Counts<'s, 'a> {
    ghost shows = { λ f. counts_of f.view.now };

    fn show_fields(&self, alloc: Global, page: &mut Page) -> Result<(), AllocError> {
        let view = self.view;
        let groups = groups_of(alloc, view)?;
        let fields = CountsFields {
            logon_count: u32::from(view.logon_count()),
            bad_password_count: u32::from(view.bad_password_count()),
            user_id: view.user_id(),
            primary_group_id: view.primary_group_id(),
            groups,
        };
        let fields = show_fields!(
            Pac; fields;
            "LogonCount" = logon_count,
            "BadPasswordCount" = bad_password_count,
            "UserId" = user_id,
            "PrimaryGroupId" = primary_group_id,
            "GroupIds" = groups
        );
        fields.show_fields(alloc, page)
    }
}

/// The session, and the domain that the account is in.
#[derive(Drop)]
struct DomainFields<'a> {
    user_flags: Flags,
    user_session_key: SessionKey<'a>,
    logon_server: Name<'a>,
    logon_domain_name: Name<'a>,
    logon_domain_id: SidView<'a>,
}

/// The session, and the domain that the account is in, lent for showing.
#[derive(Drop)]
struct Domain<'s, 'a> {
    view: &'s LogonView<'a>,
}

impl<'s, 'a> ShowFields for Domain<'s, 'a> {
    ghost shows = { λ f. domain_of f.view.now };

    fn show_fields(&self, alloc: Global, page: &mut Page) -> Result<(), AllocError> {
        let view = self.view;
        let fields = DomainFields {
            user_flags: Flags {
                set: FlagSet::UserFlags,
                number: view.user_flags(),
            },
            user_session_key: SessionKey {
                octets: view.user_session_key(),
            },
            logon_server: Name {
                octets: view.logon_server(),
            },
            logon_domain_name: Name {
                octets: view.logon_domain_name(),
            },
            logon_domain_id: view.logon_domain_id(),
        };
        let fields = show_fields!(
            Pac; fields;
            "UserFlags" = user_flags,
            "UserSessionKey" = user_session_key,
            "LogonServer" = logon_server,
            "LogonDomainName" = logon_domain_name,
            "LogonDomainId" = logon_domain_id
        );
        fields.show_fields(alloc, page)
    }
}

/// Flags of the account, and its last logons.
#[derive(Drop)]
struct AccountFields {
    user_account_control: Flags,
    sub_auth_status: u32,
    last_successful_logon: Moment,
    last_failed_logon: Moment,
    failed_logon_count: u32,
}

/// Flags of the account, and its last logons, lent for showing.
#[derive(Drop)]
struct Account<'s, 'a> {
    view: &'s LogonView<'a>,
}

impl<'s, 'a> ShowFields for Account<'s, 'a> {
    ghost shows = { λ f. account_of f.view.now };

    fn show_fields(&self, alloc: Global, page: &mut Page) -> Result<(), AllocError> {
        let view = self.view;
        let fields = AccountFields {
            user_account_control: Flags {
                set: FlagSet::UserAccountControl,
                number: view.user_account_control(),
            },
            sub_auth_status: view.sub_auth_status(),
            last_successful_logon: Moment {
                filetime: view.last_successful_logon(),
            },
            last_failed_logon: Moment {
                filetime: view.last_failed_logon(),
            },
            failed_logon_count: view.failed_logon_count(),
        };
        let fields = show_fields!(
            Pac; fields;
            "UserAccountControl" = user_account_control,
            "SubAuthStatus" = sub_auth_status,
            "LastSuccessfulILogon" = last_successful_logon,
            "LastFailedILogon" = last_failed_logon,
            "FailedILogonCount" = failed_logon_count
        );
        fields.show_fields(alloc, page)
    }
}

/// The extra identifiers and the resource groups.
#[derive(Drop)]
struct ExtraFields<'a> {
    extra_sids: Vec<SidAndAttributes<'a>>,
    resource_group_domain_sid: Optional<Option<SidView<'a>>>,
    resource_groups: Vec<Membership>,
}

/// The extra identifiers and the resource groups, lent for showing.
#[derive(Drop)]
struct Extra<'s, 'a> {
    view: &'s LogonView<'a>,
}

impl<'s, 'a> ShowFields for Extra<'s, 'a> {
    ghost shows = { λ f. extra_of f.view.now };

    fn show_fields(&self, alloc: Global, page: &mut Page) -> Result<(), AllocError> {
        let view = self.view;
        let extra_sids = extra_sids_of(alloc, view)?;
        let resource_groups = resource_groups_of(alloc, view)?;
        let fields = ExtraFields {
            extra_sids,
            resource_group_domain_sid: Optional(view.resource_group_domain_sid()),
            resource_groups,
        };
        let fields = show_fields!(
            Pac; fields;
            "ExtraSids" = extra_sids,
            "ResourceGroupDomainSid" = resource_group_domain_sid,
            "ResourceGroupIds" = resource_groups
        );
        fields.show_fields(alloc, page)
    }
}

/// The logon information (MS-PAC 2.5).
impl<'a> Show<Pac> for LogonView<'a> {
    ghost shows = { validation_info_of };

    fn show(&self, alloc: Global, label: &Label, page: &mut Page) -> Result<(), AllocError> {
        let user = (Times { view: self }, Names { view: self });
        let account = ((user, Counts { view: self }), Domain { view: self });
        let fields = ((account, Account { view: self }), Extra { view: self });
        show_struct(alloc, label, &fields, page)
    }
}
