//! What is told and handed out of a client that is let in.

ghost use Rattle.std.specs.Prelude.{◌≡◌, length, IfErr, IfOk};
ghost use Rattle.krb_accept.specs.Kerberos.{HasLength};
ghost use Rattle.krb_c_accept.specs.Answers.{IsAnswer, IsAnswerWith};
ghost use Rattle.krb_c_calls.specs.declared.call_error.CallError.TheVariants as refusals;

use crate::decision::LetIn;
use crate::parts::{encoding_of, parts_of, put_parts};
use crate::records::{AcceptedRecord, AcceptorRecord};
use crate::reply::{Reply, reply_to};
use crate::told::told_record;
use krb_c_calls::CallError;
use krb_der::DerEncode;
use krb_enc_parts::data_types::EncApRepPart;
use krb_messages::messages::ApRep;
use krb_types::data_types::AuthorizationData;
use std::alloc::{AllocError, Global};

/// What is told and handed out of a client that is let in.
#[derive(Drop)]
pub(crate) struct Answer {
    /// What is told.
    pub record: AcceptedRecord,
    /// The octets that it tells of.
    pub octets: Vec<u8>,
}

/// What is told and handed out of a client that is let in, with this reply.
fn with_reply(alloc: Global, let_in: &LetIn, reply: &Reply) -> Result<Answer, AllocError>
    ensures { IfOk result (IsAnswerWith ⟦<AuthorizationData as DerEncode>⟧ let_in.now reply.now) }
{
    let accepted = &let_in.context.accepted;
    let authorization_data = encoding_of(alloc, &accepted.ticket.authorization_data)?;
    let restrictions = encoding_of(alloc, &accepted.authorization_data)?;
    let parts = parts_of(let_in, reply, &authorization_data, &restrictions);
    let mut octets = Vec::new(alloc);
    let places = put_parts(&mut octets, &parts)?;
    Ok(Answer {
        record: told_record(&let_in.context, places),
        octets,
    })
}

/// What is told and handed out of a client that is let in, with the answer to it.
pub(crate) fn answer_of(
    alloc: Global,
    acceptor: &AcceptorRecord,
    random: &[u8],
    token: &[u8],
    let_in: &LetIn,
) -> Result<Answer, CallError>
    requires random { length random.now ≡ 48 }
    requires key { HasLength let_in.now.context.accepted.ticket.key }
    ensures made { IfOk result
        (IsAnswer ⟦<EncApRepPart as DerEncode>⟧ ⟦<ApRep as DerEncode>⟧ ⟦<AuthorizationData as DerEncode>⟧ acceptor.now random.now token.now let_in.now) }
    ensures refused { IfErr result (λ e. e ≡ refusals.Memory) }
{
    let reply = reply_to(alloc, acceptor, random, token, &let_in.context)?;
    Ok(with_reply(alloc, let_in, &reply)?)
}
