//! The parts of tickets and messages that are encrypted (RFC 4120, 5.3 and 5.5 to 5.8), and what they hold.

mod authenticators;
mod credentials;
mod private;
mod ticket_part;

pub use authenticators::{Authenticator, AuthenticatorInner, EncApRepPart, EncApRepPartInner};
pub use credentials::{EncKrbCredPart, EncKrbCredPartInner, KrbCredInfo};
pub use private::{EncKrbPrivPart, EncKrbPrivPartInner};
pub use ticket_part::{EncTicketPart, EncTicketPartInner};
