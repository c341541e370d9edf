//! Formats that have calls of their own, by the tables of their rows.

pub mod frames;
pub mod messages;
pub mod negoex;
mod negoex_data;
pub mod pacs;
mod per_message_tokens;
pub mod tokens;
