//! The messages that have a type of their own (MS-NEGOEX 2.2.6.3 to 2.2.6.5). An alert (2.2.6.6) has none.

pub use crate::exchange::Exchange;
pub use crate::nego::Nego;
pub use crate::verify::Verify;
