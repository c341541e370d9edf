//! What a service asks of tokens beside its terms.

ghost use Rattle.std.specs.Prelude.{◌≡◌, None, false};
ghost use Rattle.krb_accept.specs.declared.settings.PacCheck.TheVariants as PacCheck;

/// What a service does with the PAC of a ticket (MS-PAC): the one AD-WIN2K-PAC of an AD-IF-RELEVANT of its authorization data.
#[derive(Clone, Copy, PartialEq, Eq)]
pub enum PacCheck {
    /// It is not verified, and no PAC is handed out.
    Ignored,
    /// Where the ticket has one, its server checksum holds under the key that decrypted the ticket, and it names the ticket's client. No
    /// other AD-WIN2K-PAC stands in the ticket or in the authenticator, nor in an element of theirs that holds elements
    /// ([`TokenRefusal::PacPlace`](crate::TokenRefusal)).
    Checked,
    /// The ticket has one, and it is so.
    Required,
}

/// What a service asks of tokens beside its terms.
#[derive(Clone, Copy, PartialEq, Eq)]
pub struct Settings {
    /// The hash of the service's channel bindings (RFC 4121, 4.1.1.2), which a client's have to be; with `None` the service has none, and
    /// those of a client are not compared.
    pub bindings: Option<[u8; 16]>,
    /// Whether an AP-REQ with no frame around it is taken, as DCE style has it.
    pub bare_request: bool,
    /// Whether an authenticator with no checksum, or with one of another type than 0x8003, is taken. Such a client has no flags, and its
    /// channel bindings are not known.
    pub other_checksum: bool,
    /// What is done with the PAC of the ticket.
    pub pac: PacCheck,
}

impl Settings {
    /// Those of RFC 4121, 4.1, as they stand: no channel bindings, a frame, and a checksum of type 0x8003; and a PAC is checked, where
    /// there is one.
    pub fn new() -> Self
        ensures bindings { result.bindings ≡ None }
        ensures strict { (result.bare_request ≡ false) × (result.other_checksum ≡ false) }
        ensures pac { result.pac ≡ PacCheck.Checked }
    {
        Settings {
            bindings: None,
            bare_request: false,
            other_checksum: false,
            pac: PacCheck::Checked,
        }
    }
}
