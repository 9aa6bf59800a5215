//! What a callback answered that was called at ignition.
use rkt_fairing::Info;
use std::marker::Model;

/// How a call at ignition ended.
#[derive(Clone, Copy, Debug, PartialEq, Eq, Drop)]
pub enum IgniteAnswer {
    /// It was done.
    Done,
    /// It refused.
    Err,
    /// It answered Fault, or was still Pending at its last turn.
    FailedTurn,
}

/// A call that was made at ignition.
#[derive(Debug, Drop)]
pub struct IgniteCall {
    /// What the fairing told of itself before the call.
    pub info: Info,
    pub answer: IgniteAnswer,
}

impl Model for IgniteCall {
    ghost use Rattle.rkt_fairing.specs.Info.{seen_info};
    ghost use Rattle.rkt_ignition.specs.Calls.{SeenCall};

    ghost Value = { SeenCall };

    ghost view = { λ call. record { info = seen_info call.info; answer = call.answer } };
}
