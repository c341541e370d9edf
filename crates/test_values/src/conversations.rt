//! Two engines of a negotiation against each other over octets, with a third between them or without.

mod offers;

use crate::conversations::offers::{CUT, LONGER, OF_FIRST, OF_MIT, OF_NINTH, OF_SECOND};
use crate::toy::Toy;
use krb_spnego::rules::{Acceptor, Initiator, Refusal, Rule, accept};
use krb_spnego::{REJECT, accept_step, begin, initiate_step, read_reply};
use std::alloc::{AllocError, Global};
use std::test::Fail;

/// One side's context of the toy with this object identifier.
fn toy(alloc: Global, arcs: &[u64], tokens: u8) -> Result<Toy, AllocError> {
    Ok(Toy {
        arcs: Vec::from_slice(alloc, arcs)?,
        left: tokens,
        key: 7,
        integrity: true,
    })
}

/// The refusal as a word.
fn refusal_text(refusal: Refusal) -> &'static str {
    match refusal {
        Refusal::Broken(rule) => match rule {
            Rule::WrongMic => "WrongMic",
            Rule::NoMic => "NoMic",
            Rule::Finished => "Finished",
            Rule::Rejected => "Rejected",
            Rule::UnknownMechanism => "UnknownMechanism",
            _ => "another rule",
        },
        Refusal::OutOfMemory => "OutOfMemory",
        Refusal::Unread => "Unread",
    }
}

/// The state as words: complete after a MIC that was verified, or without one.
fn initiator_text(side: &Initiator<Toy>) -> &'static str {
    match side {
        Initiator::Offered(_) => "offered",
        Initiator::Running(_) => "waits",
        Initiator::Complete(complete) => {
            if complete.by_mic {
                "by MIC"
            } else {
                "complete"
            }
        }
        Initiator::Failed(refusal) => refusal_text(*refusal),
    }
}

/// The state as words: complete after a MIC that was verified, or without one.
fn acceptor_text(side: &Acceptor<Toy>) -> &'static str {
    match side {
        Acceptor::Fresh(_) => "fresh",
        Acceptor::Running(_) => "waits",
        Acceptor::Bare(_) => "bare",
        Acceptor::Complete(complete) => {
            if complete.by_mic {
                "by MIC"
            } else {
                "complete"
            }
        }
        Acceptor::Failed(refusal) => refusal_text(*refusal),
    }
}

/// An initiator of the toys 1 and 2, the 1 preferred, against an acceptor of one: how many messages
/// there are, the states of the initiator and of the acceptor, and the initiator's after a rejection
/// that comes then. `instead` is what a third hands to the acceptor in place of the offer.
fn converse(
    alloc: Global,
    tokens: u8,
    supported: u64,
    asks: bool,
    instead: &[u8],
) -> Result<String, Fail> {
    let first = toy(alloc, &[1, 3, 6, 1, 4, 1, 99, 1], tokens)?;
    let others = Vec::from_array(alloc, [toy(alloc, &[1, 3, 6, 1, 4, 1, 99, 2], tokens)?])?;
    let has = toy(alloc, &[1, 3, 6, 1, 4, 1, 99, supported], tokens)?;
    let mut acceptor = accept(Vec::from_array(alloc, [has])?, asks);
    let mut octets = Vec::from_slice(alloc, instead)?;
    let Ok((mut initiator, offer)) = begin(alloc, first, others) else {
        return Ok(String::from_str(alloc, "no beginning")?);
    };
    if octets.is_empty() {
        octets = offer;
    }
    let mut messages = 0;
    for turn in 0..12u32 {
        messages = turn + 1;
        let answer = if turn % 2 == 0 {
            let (side, answer) = accept_step(alloc, acceptor, &octets);
            acceptor = side;
            answer
        } else {
            let (side, answer) = initiate_step(alloc, initiator, &octets);
            initiator = side;
            answer
        };
        match answer {
            Ok(Some(next)) => octets = next,
            Ok(None) => break,
            Err(_error) => break,
        }
    }
    let (first_state, second_state) = (initiator_text(&initiator), acceptor_text(&acceptor));
    let (after, _answer) = initiate_step(alloc, initiator, &REJECT);
    let last_state = initiator_text(&after);
    Ok(format!(in alloc; "{messages}: {first_state}, {second_state}; {last_state}")?)
}

/// How many tokens a toy exchanges, which toy the acceptor has, whether it asks for MICs, what a
/// third hands to it in place of the offer, and how they end.
///
/// Where nobody is between them there are as many messages as RFC 4178, 5, gives. A third that cuts
/// out the first choice is found out by the MIC, which is over the list that the acceptor got, or
/// by its absence. One that cuts out what stands behind the first choice is found out where the
/// acceptor asks for MICs; else the first choice is taken, and nothing protects the rest. An
/// acceptor takes no mechanism that it does not have.
const CONVERSATIONS: [(u8, u64, bool, &[u8], &str); 13] = [
    (1, 1, false, &[], "2: complete, complete; Finished"),
    (1, 1, true, &[], "3: by MIC, by MIC; Finished"),
    (2, 1, false, &[], "2: complete, complete; Finished"),
    (2, 1, true, &[], "3: by MIC, by MIC; Finished"),
    (3, 1, false, &[], "4: complete, complete; Finished"),
    (3, 1, true, &[], "4: by MIC, by MIC; Finished"),
    (2, 2, false, &[], "5: by MIC, by MIC; Finished"),
    (3, 2, true, &[], "6: by MIC, by MIC; Finished"),
    (2, 2, true, &OF_SECOND, "4: WrongMic, waits; WrongMic"),
    (2, 2, false, &OF_SECOND, "4: NoMic, complete; NoMic"),
    (2, 1, true, &OF_FIRST, "2: WrongMic, waits; WrongMic"),
    (2, 1, false, &OF_FIRST, "2: complete, complete; Finished"),
    (
        2,
        2,
        false,
        &OF_NINTH,
        "1: offered, UnknownMechanism; Rejected",
    ),
];

#[test]
fn conversations(rt: HostRuntime) -> Result<(), Fail> {
    for row in &CONVERSATIONS {
        let end = converse(rt.alloc(), row.0, row.1, row.2, row.3)?;
        assert!(rt; end.as_str() == row.4, "{end}, not {}", row.4);
    }
    Ok(())
}

/// The state of an acceptor of this mechanism after these octets, whether they are a message, and
/// the state after an offer of the toy 1 behind them.
fn answer_to(alloc: Global, arcs: &[u64], octets: &[u8]) -> Result<String, Fail> {
    let fresh = accept(Vec::from_array(alloc, [toy(alloc, arcs, 2)?])?, false);
    let (acceptor, answer) = accept_step(alloc, fresh, octets);
    let state = acceptor_text(&acceptor);
    let heard = if answer.is_ok() { "heard" } else { "not heard" };
    let (after, _answer) = accept_step(alloc, acceptor, &OF_FIRST);
    let last_state = acceptor_text(&after);
    Ok(format!(in alloc; "{state}, {heard}; {last_state}")?)
}

/// The object identifier of the toy 1.
const FIRST: &[u64] = &[1, 3, 6, 1, 4, 1, 99, 1];

/// The acceptor's mechanism, its first octets, and what comes of them. The client of MIT Kerberos
/// names Kerberos first, with its own token: an acceptor that has Kerberos takes it, and one that
/// has another mechanism refuses it by the rule. Octets that are no message end the negotiation.
const FIRST_OCTETS: [(&[u64], &[u8], &str); 7] = [
    (
        &[1, 2, 840, 113554, 1, 2, 2],
        &OF_MIT,
        "complete, heard; Finished",
    ),
    (
        &[1, 2, 840, 113554, 1, 2, 3],
        &OF_MIT,
        "UnknownMechanism, heard; UnknownMechanism",
    ),
    (FIRST, &OF_FIRST, "complete, heard; Finished"),
    (FIRST, &LONGER, "Unread, not heard; Unread"),
    (FIRST, &CUT, "Unread, not heard; Unread"),
    (FIRST, &[], "Unread, not heard; Unread"),
    (FIRST, &REJECT, "Unread, not heard; Unread"),
];

#[test]
fn first_octets(rt: HostRuntime) -> Result<(), Fail> {
    for row in &FIRST_OCTETS {
        let answer = answer_to(rt.alloc(), row.0, row.1)?;
        assert!(rt; answer.as_str() == row.2, "{answer}, not {}", row.2);
    }
    Ok(())
}

/// A reply of MIT's form up to its token of 70,003 octets, laid by hand (RFC 4178, 4.2.2).
const LARGE: [u8; 20] = [
    0xa1, 0x83, 0x01, 0x11, 0x82, 0x30, 0x83, 0x01, 0x11, 0x7d, 0xa2, 0x83, 0x01, 0x11, 0x78, 0x04,
    0x83, 0x01, 0x11, 0x73,
];

#[test]
fn large_token(rt: HostRuntime) -> Result<(), Fail> {
    let mut octets = Vec::from_slice(rt.alloc(), &LARGE)?;
    octets.resize(70023, 7)?;
    let reply = read_reply(rt.alloc(), &octets).ok().expect(&rt, "a reply");
    assert!(rt; reply.state.is_none());
    assert!(rt; reply.token.is_some_and(|token| token.len() == 70003));
    Ok(())
}
