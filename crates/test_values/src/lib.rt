//! Tests of what no table of a program can hold: values that are built field by field, rows that are
//! typed apart from the tables of a crate, and engines of a negotiation. The crate holds tests alone,
//! so that no other crate is proved a second time for its own.
#![tactic(auto)]

#[cfg(test)]
mod accept_rules;
#[cfg(test)]
mod built_ccache;
#[cfg(test)]
mod built_keytab;
#[cfg(test)]
mod built_messages;
#[cfg(test)]
mod code_texts;
#[cfg(test)]
mod conversations;
#[cfg(test)]
mod first_rows;
#[cfg(test)]
mod kdc_proxy;
#[cfg(test)]
mod places;
#[cfg(test)]
mod primitive_rows;
#[cfg(test)]
mod rows_of_standards;
#[cfg(test)]
mod third_legs;
pub mod toy;
#[cfg(test)]
mod view_rows;
