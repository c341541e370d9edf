//! Whether a service lets in the client that sent a token, for C. `krb.h` declares these calls.

ghost use Rattle.krb_c_accept.specs.Bindings.{IsBindingsHash, RefusesBindings};
ghost use Rattle.krb_c_accept.specs.Calls.{IsCall};
ghost use Rattle.krb_c_accept.specs.Confirming.{IsConfirmation, confirm_inputs};
ghost use Rattle.krb_c_accept.specs.ErrorMessages.{IsErrorMessage, RefusesErrorMessage};
ghost use Rattle.krb_c_accept.specs.Inputs.{inputs};
ghost use Rattle.krb_c_calls.specs.Handing.{IsAnswered};

use krb_accept::{ChannelBindings, Kerberos};
use krb_accept_rules::Opening;
use krb_c_accept::{
    AcceptedRecord, AcceptorRecord, Asked, ConfirmAsked, ErrorAsked, accept, channel_bindings,
    confirm, make_error,
};
use krb_der::DerEncode;
use krb_enc_parts::data_types::{EncApRepPart, EncKrbCredPart};
use krb_messages::messages::{ApRep, KrbCred, KrbError};
use krb_types::data_types::AuthorizationData;
use std::alloc::Global;

/// `krb_accept` of `krb.h`: the client that sent a token, where a service lets it in.
#[unsafe(no_mangle)]
pub extern "C" fn krb_accept(
    alloc: Global,
    acceptor: &AcceptorRecord,
    keytab: &[u8],
    session_keys: &[u8],
    server: &[u8],
    client_realm: &[u8],
    bindings: &[u8],
    address: &[u8],
    random: &[u8],
    token: &[u8],
    accepted: &mut AcceptedRecord,
    out: &mut [u8],
    size: &mut usize,
) -> u32
    ensures { IsCall ⟦<KrbCred as DerEncode>⟧ ⟦<EncKrbCredPart as DerEncode>⟧ ⟦<AuthorizationData as DerEncode>⟧ ⟦<Kerberos as Opening>⟧
        ⟦<EncApRepPart as DerEncode>⟧ ⟦<ApRep as DerEncode>⟧
        (inputs acceptor.now keytab.now session_keys.now server.now client_realm.now bindings.now address.now random.now token.now) accepted.new out.old out.new size.new result }
{
    let asked = Asked {
        acceptor: *acceptor,
        keytab,
        session_keys,
        servers: server,
        realms: client_realm,
        bindings,
        address,
        random,
        token,
    };
    accept(alloc, &asked, accepted, out, size)
}

/// `krb_confirm` of `krb.h`: whether a client's message is the third leg of DCE style.
#[unsafe(no_mangle)]
pub extern "C" fn krb_confirm(
    alloc: Global,
    etype: u32,
    session_key: &[u8],
    own_reply: &[u8],
    sequence_number: u32,
    message: &[u8],
) -> u32
    ensures { IsConfirmation ⟦<ApRep as DerEncode>⟧ ⟦<EncApRepPart as DerEncode>⟧
        (confirm_inputs etype session_key.now own_reply.now sequence_number message.now) result }
{
    let asked = ConfirmAsked {
        etype,
        session_key,
        own_reply,
        sequence_number,
        message,
    };
    confirm(alloc, &asked)
}

/// `krb_channel_bindings` of `krb.h`: the hash of channel bindings.
#[unsafe(no_mangle)]
pub extern "C" fn krb_channel_bindings(
    alloc: Global,
    initiator_type: u32,
    initiator_address: &[u8],
    acceptor_type: u32,
    acceptor_address: &[u8],
    data: &[u8],
    out: &mut [u8],
    size: &mut usize,
) -> u32
    ensures { IsAnswered
        (IsBindingsHash (record {
          initiator_type = initiator_type;
          initiator_address = initiator_address.now;
          acceptor_type = acceptor_type;
          acceptor_address = acceptor_address.now;
          application_data = «data».now;
        }))
        (RefusesBindings (record {
          initiator_type = initiator_type;
          initiator_address = initiator_address.now;
          acceptor_type = acceptor_type;
          acceptor_address = acceptor_address.now;
          application_data = «data».now;
        })) out.old out.new size.new result }
{
    let bindings = ChannelBindings {
        initiator_type,
        initiator_address,
        acceptor_type,
        acceptor_address,
        application_data: data,
    };
    channel_bindings(alloc, &bindings, out, size)
}

/// `krb_make_error` of `krb.h`: the KRB-ERROR for a client that is refused.
#[unsafe(no_mangle)]
pub extern "C" fn krb_make_error(
    alloc: Global,
    keytab: &[u8],
    clock: i64,
    microseconds: u32,
    code: u32,
    in_frame: bool,
    out: &mut [u8],
    size: &mut usize,
) -> u32
    ensures { IsAnswered
        (IsErrorMessage ⟦<KrbError as DerEncode>⟧ (record { clock = clock; microseconds = microseconds; code = code; in_frame = in_frame }) keytab.now)
        (RefusesErrorMessage (record { clock = clock; microseconds = microseconds; code = code; in_frame = in_frame }) keytab.now)
        out.old out.new size.new result }
{
    let asked = ErrorAsked {
        clock,
        microseconds,
        code,
        in_frame,
    };
    make_error(alloc, asked, keytab, out, size)
}
