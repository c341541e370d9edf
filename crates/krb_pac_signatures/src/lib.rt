//! The signatures of a PAC (MS-PAC, 2.8): what each is over, and whether it holds under a key.
#![tactic(auto)]

mod error;
mod pac;
mod signature;
mod signatures;
mod verdict;

pub use error::PacSignatureError;
pub use pac::{
    PacChecksum, PacVerdicts, full_verdict, kdc_verdict, server_verdict, ticket_verdict, verdicts,
};
pub use signature::SignatureView;
pub use signatures::PacSignatures;
pub use verdict::{Verdict, verify};
