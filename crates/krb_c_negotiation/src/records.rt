//! The structs of `krb.h`. They have no pointers in them.

/// `krb_negotiation` of `krb.h`: one side of a negotiation (RFC 4178, 3.2). What is set is not 0.
#[repr(C)]
#[derive(Clone, Copy)]
pub struct NegotiationRecord {
    /// 0 for the initiator, 1 for the acceptor.
    pub role: u32,
    /// Set: this acceptor wants MICs whichever mechanism is chosen.
    pub asks: u32,
    /// How far the side is: 0 to 5, in the order of `Stage`.
    pub stage: u32,
    /// The number of the rule that was broken, where the stage is 4.
    pub rule: u32,
    /// The number of the mechanism that both sides use.
    pub mechanism: u32,
    /// Set: the mechanism's context is established on this side.
    pub established: u32,
    /// Set: the mechanism is the initiator's preferred one.
    pub preferred: u32,
    /// Set: MICs have to be exchanged (RFC 4178, 5).
    pub required: u32,
    /// Set: this side has sent its MIC.
    pub sent: u32,
    /// Set: the side is complete, and a MIC of the peer held.
    pub by_mic: u32,
    /// Which of the mechanism's names the acceptor's supportedMech has: 0 its own, k its k-th other
    /// one.
    pub name: usize,
}

/// `krb_mechanism` of `krb.h`: a mechanism of a side.
#[repr(C)]
#[derive(Clone, Copy)]
pub struct MechanismRecord {
    /// The number by which the caller knows it.
    pub number: u32,
    /// Set: its context protects messages by MICs.
    pub integrity: u32,
    /// Set: the octets that came are a first token of its own.
    pub is_bare: u32,
}

/// `krb_negotiation_question` of `krb.h`: what octets ask of a mechanism. What is set is 1.
#[repr(C)]
#[derive(Clone, Copy)]
pub struct QuestionRecord {
    /// The number of the rule that is broken; 0 where none is.
    pub rule: u32,
    /// The number of the mechanism.
    pub mechanism: u32,
    /// Set: it takes the token, or begins with none.
    pub steps: u32,
    /// Set: a token came.
    pub has_token: u32,
    /// Set: a MIC of the peer's came.
    pub has_mic: u32,
    /// Set: a list of mechanisms came.
    pub has_list: u32,
    /// How many octets the token has, which stand first.
    pub token_size: usize,
    /// How many octets the MIC has, which stand behind the token.
    pub mic_size: usize,
    /// How many octets the list has, which stand behind the MIC.
    pub list_size: usize,
}

/// `krb_negotiation_answer` of `krb.h`: what a step comes to. What is set is 1.
#[repr(C)]
#[derive(Clone, Copy)]
pub struct AnswerRecord {
    /// Set: the mechanism's own MIC has to be told, and no step is made.
    pub lacks_mic: u32,
    /// Set: octets are sent.
    pub sends: u32,
}

/// No question.
pub(crate) const NO_QUESTION: QuestionRecord = QuestionRecord {
    rule: 0,
    mechanism: 0,
    steps: 0,
    has_token: 0,
    has_mic: 0,
    has_list: 0,
    token_size: 0,
    mic_size: 0,
    list_size: 0,
};
