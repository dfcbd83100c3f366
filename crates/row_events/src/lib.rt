// What can happen, what it depends on, and the rows of document 01, "Events": types only.
#![tactic(auto)]

// What comes to a live record. "Rid": with RID set. "Cut": with TTR clear.
#[derive(Clone, Copy)]
pub enum Event {
    Invoke,
    InvokeRid,
    ResultCut,
    ResultCutRid,
    Result,
    ResultRid,
    PlainAck,
    // Tve/Tok set: TIDve to an initiator, TIDok to a responder.
    TidAck,
    TidAckRid,
    ReceivedAbort,
    // A Segmented Invoke, a Segmented Result or a Nack.
    Segmented,
    MalformedPdu,
    UserAnswer,
    UserResult,
    UserAbort,
    Timer,
}

// What a row asks of the record beside its state.
#[derive(Clone, Copy)]
pub struct Conditions {
    // The counter of the state is below its maximum: RCR < RCR_MAX, or AEC < AEC_MAX.
    pub more: bool,
    // The flag of the state is set: HoldOn, user acknowledgement, or hold-on sent.
    pub mark: bool,
    // The deadline is a waiting limit, in one of the waits that have one.
    pub limited: bool,
}

// The rows for a live record, in document 01's order.
#[derive(Clone, Copy)]
pub enum Row {
    Ignored,
    // Refusal 9.
    NotAllowed,
    PeerAborts,
    Malformed,
    UserAborts,
    PeerAbortsUnseen,
    MalformedUnseen,
    TidokSent,
    Confirmed,
    HeldOn,
    Resent,
    GivenUp,
    ResultUnsupported,
    ResultConfirms,
    ResultTaken,
    ResultAnswered,
    ResultAcked,
    UserAwaited,
    UserSilent,
    ResultSeenAgain,
    TimeoutEnds,
    Verified1,
    Verified2,
    TidveRepeated,
    InvokeAnswered,
    InvokeAcked,
    UserWorks,
    HoldOnSent,
    ResultSent,
    HoldOnRepeated,
    ResultResent,
    InvokeSeenAgain,
    TidokSeenAgain,
    // The waiting limit is at its end.
    TidokWaitEnds,
    HeldOnWaitEnds,
    ResultWaitEnds,
}

// The rows for what comes without a live record: a request, or a PDU.
#[derive(Clone, Copy)]
pub enum Opening {
    Ignored,
    Requested0,
    Requested1,
    Requested2,
    Malformed,
    WrongVersion,
    Unsupported,
    TooLong,
    Shown0,
    Valid1,
    Valid2,
    ToVerify1,
    ToVerify2,
    UnknownTidve,
    // An Invoke with TIDnew, to be verified.
    Restarted1,
    Restarted2,
}
