//! The library for C. Each export is a call of the crates below, and states its clause again; `krb.h` declares them.
#![tactic(auto)]

mod accept;
mod client;
mod crypto;
mod frames;
mod gss;
mod items;
mod kept;
mod negotiation;
mod parts;
mod proxy;
mod proxy_items;
mod sizes;
