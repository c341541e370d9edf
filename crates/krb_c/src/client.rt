//! The client for C: tickets of a KDC, and a service that answers. `krb.h` declares these calls.

ghost use Rattle.std.specs.Prelude.{[], replicate};
ghost use Rattle.krb_c_client.specs.Application.{IsApCall, ap_inputs};
ghost use Rattle.krb_c_client.specs.Confirmed.{IsReplyCall, reply_inputs};
ghost use Rattle.krb_c_client.specs.Initial.{IsInitialCall};
ghost use Rattle.krb_c_client.specs.Inputs.{inputs};
ghost use Rattle.krb_c_client.specs.Means.{lent};
ghost use Rattle.krb_c_client.specs.Renamed.{IsRenamedCall};
ghost use Rattle.krb_c_client.specs.Service.{IsTicketCall};

use krb_c_client::{
    ApAsked, ApTermsRecord, ByRecord, ExchangeRecord, FollowedRecord, Proof, Question, ReplyAsked,
    TermsRecord, ap_reply, ap_request, initial, renamed, ticket as further_ticket,
};
use krb_client::{Encodings, Rfc4120};
use krb_der::DerEncode;
use krb_enc_parts::data_types::{Authenticator, EncApRepPart};
use krb_messages::messages::{ApRep, ApReq, EncTgsRepPart};
use krb_types::data_types::{Checksum, Ticket};
use std::alloc::Global;

/// `krb_client_initial` of `krb.h`: a first ticket, step by step.
#[unsafe(no_mangle)]
pub extern "C" fn krb_client_initial(
    alloc: Global,
    terms: &TermsRecord,
    options: &[usize],
    flags: &[usize],
    etypes: &[i32],
    client: &[u8],
    server: &[u8],
    password: &[u8],
    keytab: &[u8],
    random: &[u8],
    message: &[u8],
    exchange: &mut ExchangeRecord,
    followed: &mut FollowedRecord,
    out: &mut [u8],
    size: &mut usize,
) -> u32
    ensures { IsInitialCall ⟦<Rfc4120 as Encodings>⟧.initial ⟦<Ticket as DerEncode>⟧ ⟦<EncTgsRepPart as DerEncode>⟧
        (inputs terms.now options.now flags.now etypes.now client.now server.now random.now message.now)
        password.now keytab.now exchange.old exchange.new followed.new out.old out.new size.new result }
{
    let question = Question {
        terms: *terms,
        options,
        flags,
        etypes,
        client,
        server,
        random,
        message,
    };
    let proof = Proof { password, keytab };
    initial(alloc, &question, &proof, exchange, followed, out, size)
}

/// `krb_client_renamed` of `krb.h`: a reply that renames the client or the server.
#[unsafe(no_mangle)]
pub extern "C" fn krb_client_renamed(
    alloc: Global,
    terms: &TermsRecord,
    flags: &[usize],
    etypes: &[i32],
    client: &[u8],
    server: &[u8],
    request: &[u8],
    message: &[u8],
    exchange: &ExchangeRecord,
    followed: &mut FollowedRecord,
    out: &mut [u8],
    size: &mut usize,
) -> u32
    ensures { IsRenamedCall ⟦<Rfc4120 as Encodings>⟧.initial ⟦<Checksum as DerEncode>⟧ ⟦<Ticket as DerEncode>⟧ ⟦<EncTgsRepPart as DerEncode>⟧
        (inputs terms.now [] flags.now etypes.now client.now server.now (replicate 16 0) message.now)
        request.now exchange.now followed.new out.old out.new size.new result }
{
    let random = [0u8; 16];
    let question = Question {
        terms: *terms,
        options: &[],
        flags,
        etypes,
        client,
        server,
        random: &random,
        message,
    };
    renamed(alloc, &question, request, exchange, followed, out, size)
}

/// `krb_client_ticket` of `krb.h`: a further ticket, step by step.
#[unsafe(no_mangle)]
pub extern "C" fn krb_client_ticket(
    alloc: Global,
    terms: &TermsRecord,
    options: &[usize],
    flags: &[usize],
    etypes: &[i32],
    client: &[u8],
    server: &[u8],
    ticket: &[u8],
    session_etype: i32,
    session_key: &[u8],
    subkey: &[u8],
    random: &[u8],
    message: &[u8],
    exchange: &mut ExchangeRecord,
    followed: &mut FollowedRecord,
    out: &mut [u8],
    size: &mut usize,
) -> u32
    ensures { IsTicketCall ⟦<Rfc4120 as Encodings>⟧.service ⟦<Ticket as DerEncode>⟧ ⟦<EncTgsRepPart as DerEncode>⟧
        (inputs terms.now options.now flags.now etypes.now client.now server.now random.now message.now)
        (lent ticket.now session_etype session_key.now subkey.now) exchange.old exchange.new followed.new
        out.old out.new size.new result }
{
    let question = Question {
        terms: *terms,
        options,
        flags,
        etypes,
        client,
        server,
        random,
        message,
    };
    let by = ByRecord {
        ticket,
        session_etype,
        session_key,
        subkey,
    };
    further_ticket(alloc, &question, &by, exchange, followed, out, size)
}

/// `krb_client_ap_request` of `krb.h`: the AP-REQ for a service.
#[unsafe(no_mangle)]
pub extern "C" fn krb_client_ap_request(
    alloc: Global,
    terms: &ApTermsRecord,
    client: &[u8],
    ticket: &[u8],
    session_key: &[u8],
    subkey: &[u8],
    bindings: &[u8],
    random: &[u8],
    rule: &mut u32,
    out: &mut [u8],
    size: &mut usize,
) -> u32
    ensures { IsApCall ⟦<Ticket as DerEncode>⟧ ⟦<ApReq as DerEncode>⟧ ⟦<Authenticator as DerEncode>⟧
        (ap_inputs terms.now client.now ticket.now session_key.now subkey.now bindings.now random.now)
        rule.new out.old out.new size.new result }
{
    let asked = ApAsked {
        terms: *terms,
        client,
        ticket,
        session_key,
        subkey,
        bindings,
        random,
    };
    ap_request(alloc, &asked, rule, out, size)
}

/// `krb_client_ap_reply` of `krb.h`: whether an AP-REP confirms the service.
#[unsafe(no_mangle)]
pub extern "C" fn krb_client_ap_reply(
    alloc: Global,
    session_etype: i32,
    session_key: &[u8],
    seconds: i64,
    microseconds: u32,
    reply: &[u8],
    rule: &mut u32,
    out: &mut [u8],
    size: &mut usize,
) -> u32
    ensures { IsReplyCall ⟦<ApRep as DerEncode>⟧ ⟦<EncApRepPart as DerEncode>⟧
        (reply_inputs session_etype session_key.now seconds microseconds reply.now) rule.new out.old out.new size.new result }
{
    let asked = ReplyAsked {
        session_etype,
        session_key,
        seconds,
        microseconds,
        reply,
    };
    ap_reply(alloc, &asked, rule, out, size)
}
