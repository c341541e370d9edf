//! What messages are built of (MS-NEGOEX 2.2.2, 2.2.5, 2.2.6.1, 2.2.6.2). An octet, a GUID and a vector of a type of data are
//! types of data, too.

pub use crate::checksum::Checksum;
pub use crate::extension::Extension;
pub use crate::guid::{AuthScheme, ConversationId, Guid};
pub use crate::header::{MessageHeader, MessageType};
pub use crate::vector::{AuthSchemeVector, ByteVector, ExtensionVector};
