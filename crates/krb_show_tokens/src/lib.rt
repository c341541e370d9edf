//! Tokens of the GSS-API as pages: the frame of RFC 2743 around messages of Kerberos (RFC 4121, 4.1), of PKU2U
//! (draft-zhu-pku2u-09) and of IAKERB (draft-ietf-kitten-iakerb-03), SPNEGO (RFC 4178), MIC and Wrap (RFC 4121, 4.2.6).
#![tactic(auto)]

mod elements;
mod frames;
mod heads;
pub mod kpasswd;
mod leaves;
mod negotiation;
mod opened;
mod part;
mod per_message;
mod places;
mod proxies;
mod tokens;

pub use heads::read_mechanism;
pub use leaves::{show_identifier, show_token_flags, show_token_id, show_unsigned};
pub use opened::{
    FramedApRep, FramedApReq, FramedAsRep, FramedAsReq, FramedError, FramedTgtRep, FramedTgtReq,
    LoneMessages, MechListMics, MechTokens, OpenedAs, OpenedByRow, OpenedOctets, OpensOctets,
    Pku2uTokens, PlainOctets, UserToUserTokens,
};
pub use places::places_of_token;
pub use proxies::{FramedProxy, ProxyMessages, TokenPages};
pub use tokens::page_of_token;

/// The way in which this crate shows: octet strings of a negotiation that hold known tokens are opened.
#[derive(Drop)]
pub struct GssToken;
