//! The command that the arguments of `jolmurig` are: which one, with its options and the names of files. No file is opened, and no option's text is read.
#![tactic(auto)]

mod arguments;
mod command;
mod fault;
mod parse_accept;

pub use arguments::parse;
pub use command::{
    Accept, Command, Direction, FileName, Format, NameText, Operand, Output, Show, Source,
    SourceKind, Topic, TypeName,
};
pub use fault::{Fault, Word};
