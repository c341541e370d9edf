//! The numbers that are told of a client that is let in.

ghost use Rattle.std.specs.Prelude.{◌≡◌};
ghost use Rattle.krb_c_accept.specs.Told.{HasNoRule, HasNumbers, HasPlaces, HasTimes, IsEtypeOrZero, IsNumberOrZero, IsSequenceOf, flags_number, seconds_or};

use crate::parts::Places;
use crate::records::AcceptedRecord;
use krb_accept::Context;
use krb_der::IntegerAsn1;
use krb_types::data_types::{EncryptionKey, KerberosFlags, KerberosTime};
use krb_types::view::unix_seconds;

/// The first 32 flags, flag 0 highest; 0 of fewer.
fn flags_number(flags: &KerberosFlags) -> u32
    ensures { result ≡ flags_number flags.now.octets }
{
    let octets = flags.octets();
    if octets.len() < 4 {
        return 0;
    }
    u32::from_be_bytes([octets[0], octets[1], octets[2], octets[3]])
}

/// A number, where 32 bits hold it, and else 0.
fn number_or_zero(number: &IntegerAsn1) -> u32
    ensures { IsNumberOrZero number.now result }
{
    match number.to_u32() {
        Some(number) => number,
        None => 0,
    }
}

/// The encryption type of a key; 0 of none.
fn etype_or_zero(key: &Option<EncryptionKey>) -> u32
    ensures { IsEtypeOrZero key.now result }
{
    match key {
        Some(key) => number_or_zero(&key.key_type.0),
        None => 0,
    }
}

/// The number of the client's first message; -1 where there is none that 32 bits hold.
fn sequence_of(number: &Option<IntegerAsn1>) -> i64
    ensures { IsSequenceOf number.now result }
{
    match number {
        Some(number) => match number.to_u32() {
            Some(number) => i64::from(number),
            None => -1,
        },
        None => -1,
    }
}

/// A time, or another where there is none, in seconds since 1 January 1970, 00:00:00 UTC.
fn seconds_or(time: &Option<KerberosTime>, other: &KerberosTime) -> i64
    ensures { result ≡ seconds_or time.now other.now }
{
    match time {
        Some(time) => unix_seconds(time),
        None => unix_seconds(other),
    }
}

/// What is told of a client that is let in.
pub(crate) fn told_record(context: &Context, places: Places) -> AcceptedRecord
    ensures places { HasPlaces places result }
    ensures times { HasTimes context.now.accepted.ticket result }
    ensures numbers { HasNumbers context.now result }
    ensures no_rule { HasNoRule result }
{
    let accepted = &context.accepted;
    let ticket = &accepted.ticket;
    AcceptedRecord {
        entry: places.entry,
        session_key: places.session_key,
        subkey: places.subkey,
        own_subkey: places.own_subkey,
        pac: places.pac,
        transited: places.transited,
        authorization_data: places.authorization_data,
        restrictions: places.restrictions,
        delegated: places.delegated,
        reply: places.reply,
        auth_time: unix_seconds(&ticket.auth_time),
        start_time: seconds_or(&ticket.start_time, &ticket.auth_time),
        end_time: unix_seconds(&ticket.end_time),
        sequence_number: sequence_of(&accepted.sequence_number),
        seen: 0,
        flags: context.flags,
        ticket_flags: flags_number(&ticket.flags),
        session_etype: number_or_zero(&ticket.key.key_type.0),
        subkey_etype: etype_or_zero(&accepted.subkey),
        transited_type: number_or_zero(&ticket.transited.tr_type.0),
        rule: 0,
        code: 0,
        has_seen: 0,
    }
}
