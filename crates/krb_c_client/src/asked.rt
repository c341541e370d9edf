//! What is asked of a KDC, as the engine takes it.

ghost use Rattle.std.specs.Prelude.{◌≡◌, ◌≢◌, [], length, IfErr, IfOk, MatchBool};
ghost use Rattle.krb_c_calls.specs.declared.call_error.CallError.TheVariants as refusals;
ghost use Rattle.krb_c_client.specs.Asked.{AreTerms, IsAsked, IsMoment, IsNotAsked, IsNotPrepared, IsPrepared};
ghost use Rattle.krb_c_client.specs.Inputs.{inputs_of};

use crate::names::principal_of;
use crate::records::TermsRecord;
use crate::settings::{CANONICALIZE, DATAGRAMS, FROM, RTIME, has_setting, optional};
use crate::suites::suites_of;
use krb_c_calls::CallError;
use krb_client::{Limits, Moment, Terms};
use krb_client_rules::Asked;
use std::alloc::Global;

/// How many random octets a call has.
const RANDOM_SIZE: usize = 16;

/// What is asked of a KDC, and what it sent.
#[derive(Clone, Copy)]
pub struct Question<'a> {
    /// How it is asked.
    pub terms: TermsRecord,
    /// The options of the request, by their numbers (RFC 4120, 5.4.1).
    pub options: &'a [usize],
    /// Which of the flags 1 to 8 the ticket may have.
    pub flags: &'a [usize],
    /// The encryption types, the preferred one first.
    pub etypes: &'a [i32],
    /// The client, as text.
    pub client: &'a [u8],
    /// The server, as text.
    pub server: &'a [u8],
    /// 16 random octets.
    pub random: &'a [u8],
    /// What the KDC sent; no octets at the beginning.
    pub message: &'a [u8],
}

/// What is asked of a KDC, as the engine takes it.
#[derive(Drop)]
pub(crate) struct Prepared {
    /// What is asked for.
    pub asked: Asked,
    /// The clock and the random numbers.
    pub moment: Moment,
}

/// Whether there are no octets.
pub(crate) fn is_absent(octets: &[u8]) -> bool
    ensures { MatchBool result (octets.now ≡ []) (octets.now ≢ []) }
{
    octets.is_empty()
}

/// How it is asked.
pub(crate) fn terms_of<'a>(question: &Question<'a>) -> Terms<'a>
    ensures { AreTerms (inputs_of question.now) result }
{
    let terms = &question.terms;
    Terms {
        options: question.options,
        skew: terms.skew,
        limits: Limits {
            least: terms.least,
            most: terms.most,
        },
        canonicalize: has_setting(terms.settings, CANONICALIZE),
        datagrams: has_setting(terms.settings, DATAGRAMS),
    }
}

/// The clock and the random numbers. `SeedSize` where there are not 16 random octets.
fn moment_of(question: &Question) -> Result<Moment, CallError>
    ensures made { IfOk result (IsMoment (inputs_of question.now)) }
    ensures refused { IfErr result (λ e. (e ≡ refusals.SeedSize) × (length question.now.random.now ≢ 16)) }
{
    if question.random.len() != RANDOM_SIZE {
        return Err(CallError::SeedSize);
    }
    let mut random = [0; RANDOM_SIZE];
    random.copy_from_slice(question.random);
    Ok(Moment {
        seconds: question.terms.seconds,
        microseconds: question.terms.microseconds,
        nonce: question.terms.nonce,
        random,
    })
}

/// What is asked for, under this nonce.
fn asked_of(alloc: Global, question: &Question, nonce: u32) -> Result<Asked, CallError>
    ensures made { IfOk result (IsAsked (inputs_of question.now) nonce) }
    ensures refused { IfErr result (IsNotAsked (inputs_of question.now)) }
{
    let terms = &question.terms;
    let client = principal_of(alloc, question.client, terms.client_type)?;
    let server = principal_of(alloc, question.server, terms.server_type)?;
    let etypes = suites_of(alloc, question.etypes)?;
    let flags = Vec::from_slice(alloc, question.flags)?;
    Ok(Asked {
        crealm: client.realm,
        cname: client.name,
        realm: server.realm,
        sname: server.name,
        from: optional(terms.settings, FROM, terms.from),
        till: terms.till,
        rtime: optional(terms.settings, RTIME, terms.rtime),
        nonce,
        flags,
        etypes,
    })
}

/// What is asked of a KDC under this nonce. Else the first of these: `SeedSize` where there are not
/// 16 random octets; `Invalid` where the client is no principal with a realm, and where the server
/// is none; `Number` where an encryption type has no suite. Or `Memory`.
pub(crate) fn prepared_of(
    alloc: Global,
    question: &Question,
    nonce: u32,
) -> Result<Prepared, CallError>
    ensures made { IfOk result (λ p. IsPrepared (inputs_of question.now) nonce p.asked p.moment) }
    ensures refused { IfErr result (IsNotPrepared (inputs_of question.now)) }
{
    let moment = moment_of(question)?;
    let asked = asked_of(alloc, question, nonce)?;
    Ok(Prepared { asked, moment })
}
