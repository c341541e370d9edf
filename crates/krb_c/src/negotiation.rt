//! A negotiation (SPNEGO, RFC 4178), for C. `krb.h` declares these calls.

ghost use Rattle.std.specs.Prelude.{[]};
ghost use Rattle.krb_c_negotiation.specs.Answering.{IsAnswer};
ghost use Rattle.krb_c_negotiation.specs.Beginning.{Begins};
ghost use Rattle.krb_c_negotiation.specs.Mechanisms.{words_of};
ghost use Rattle.krb_c_negotiation.specs.Taking.{Takes};

use krb_c_negotiation::{
    AnswerRecord, MechanismRecord, NegotiationRecord, QuestionRecord, Tale, answer, begin, take,
};
use krb_der::{Asn1SequenceOf, DerEncode};
use krb_gss_tokens::gss_api::{ApplicationTag0, GssApiNegInit, MechTypeList, NegTokenTarg1};
use std::alloc::Global;

/// `krb_negotiation_begin` of `krb.h`: an initiator makes its offer.
#[unsafe(no_mangle)]
pub extern "C" fn krb_negotiation_begin(
    alloc: Global,
    side: &mut NegotiationRecord,
    names: &[u8],
    mechanisms: &[MechanismRecord],
    mechanism: u32,
    progress: u32,
    token: &[u8],
    offer_size: &mut usize,
    out: &mut [u8],
    size: &mut usize,
) -> u32
    ensures { Begins ⟦<ApplicationTag0<GssApiNegInit> as DerEncode>⟧ ⟦<MechTypeList as DerEncode>⟧ ⟦<Asn1SequenceOf<MechTypeList> as DerEncode>⟧
        (words_of names.now mechanisms.now [] mechanism progress token.now [] [])
        (record { side = side.old; offer_size = offer_size.old; out = out.old })
        (record { side = side.new; offer_size = offer_size.new; out = out.new }) size.new result }
{
    let tale = Tale {
        names,
        mechanisms,
        list: &[],
        mechanism,
        progress,
        token,
        verified: &[],
        mic: &[],
    };
    begin(alloc, side, &tale, offer_size, out, size)
}

/// `krb_negotiation_take` of `krb.h`: what octets of the peer's ask of a mechanism.
#[unsafe(no_mangle)]
pub extern "C" fn krb_negotiation_take(
    alloc: Global,
    side: &NegotiationRecord,
    names: &[u8],
    mechanisms: &[MechanismRecord],
    list: &[u8],
    octets: &[u8],
    question: &mut QuestionRecord,
    out: &mut [u8],
    size: &mut usize,
) -> u32
    ensures { Takes ⟦<ApplicationTag0<GssApiNegInit> as DerEncode>⟧ ⟦<MechTypeList as DerEncode>⟧ ⟦<NegTokenTarg1 as DerEncode>⟧
        ⟦<Asn1SequenceOf<MechTypeList> as DerEncode>⟧ side.now (words_of names.now mechanisms.now list.now 0 4 [] [] []) octets.now
        (record { question = question.old; out = out.old }) (record { question = question.new; out = out.new }) size.new result }
{
    let tale = Tale {
        names,
        mechanisms,
        list,
        mechanism: 0,
        progress: 4,
        token: &[],
        verified: &[],
        mic: &[],
    };
    take(alloc, side, &tale, octets, question, out, size)
}

/// `krb_negotiation_answer` of `krb.h`: a side makes the step that these octets ask for.
#[unsafe(no_mangle)]
pub extern "C" fn krb_negotiation_answer(
    alloc: Global,
    side: &mut NegotiationRecord,
    names: &[u8],
    mechanisms: &[MechanismRecord],
    list: &[u8],
    octets: &[u8],
    mechanism: u32,
    progress: u32,
    token: &[u8],
    verified: &[u8],
    mic: &[u8],
    reply: &mut AnswerRecord,
    out: &mut [u8],
    size: &mut usize,
) -> u32
    ensures { IsAnswer ⟦<ApplicationTag0<GssApiNegInit> as DerEncode>⟧ ⟦<MechTypeList as DerEncode>⟧ ⟦<NegTokenTarg1 as DerEncode>⟧
        ⟦<Asn1SequenceOf<MechTypeList> as DerEncode>⟧
        (words_of names.now mechanisms.now list.now mechanism progress token.now verified.now mic.now) octets.now
        (record { side = side.old; told = reply.old; out = out.old }) (record { side = side.new; told = reply.new; out = out.new }) size.new result }
{
    let tale = Tale {
        names,
        mechanisms,
        list,
        mechanism,
        progress,
        token,
        verified,
        mic,
    };
    answer(alloc, side, &tale, octets, reply, out, size)
}
