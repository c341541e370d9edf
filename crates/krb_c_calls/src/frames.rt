//! Frames of messages as C asks for them: octets and numbers in; a status out, and the places of fields in the octets, or octets in the
//! caller's room.

mod element;
pub mod laws;
mod making;
mod pac;
mod password;
mod place;
mod refusal;
mod token;

pub use making::{make_kdc_proxy_message, make_neg_token_init, make_neg_token_resp};
pub use pac::{PlaceRecord, pac_buffer, pac_buffers, pac_count};
pub use password::{make_password_frame, password_frame};
pub use token::{gss_token, make_gss_token};
