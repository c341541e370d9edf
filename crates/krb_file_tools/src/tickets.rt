//! Which credentials of a cache stand for tickets.

ghost use Rattle.std.specs.Prelude.{◌≡◌};
ghost use Rattle.krb_file_tools.specs.Tickets.{is_configuration, is_ticket};

use krb_files::ccache::CredentialView;

/// Whether a credential is neither removed nor a configuration entry.
pub(crate) fn is_ticket(credential: &CredentialView) -> bool
    ensures { result ≡ is_ticket credential.now }
{
    !credential.is_removed() && !credential.is_config()
}

/// Whether a credential is a configuration entry that was not removed.
pub(crate) fn is_configuration(credential: &CredentialView) -> bool
    ensures { result ≡ is_configuration credential.now }
{
    !credential.is_removed() && credential.is_config()
}
