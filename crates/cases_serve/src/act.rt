//! What a fairing does where it is called.
use cases::{CaseError, first_word, parsed};
use rkt_fairing::Kind;

/// What a fairing does where it is called.
#[derive(Clone, Copy, Drop)]
pub enum Act {
    Done,
    Fault,
    Starve,
    Pend(u32),
    Notify,
    Seen,
    Once,
}

/// How an act ends once it is not Pending any more.
#[derive(Clone, Copy, Drop)]
pub enum Ending {
    Done,
    Fault,
    Starved,
}

fn read_plain(text: &str) -> Result<Act, CaseError> {
    match text {
        "done" => Ok(Act::Done),
        "fault" => Ok(Act::Fault),
        "starve" => Ok(Act::Starve),
        "notify" => Ok(Act::Notify),
        "seen" => Ok(Act::Seen),
        "once" => Ok(Act::Once),
        _ => Err(CaseError::Line),
    }
}

fn read_act(text: &str) -> Result<Act, CaseError> {
    let (name, rest) = first_word(text);
    if name == "pend" {
        return Ok(Act::Pend(parsed::<u32>(rest)?));
    }
    read_plain(text)
}

fn read_kind(word: &str) -> Result<Kind, CaseError> {
    match word {
        "liftoff" => Ok(Kind::Liftoff),
        "shutdown" => Ok(Kind::Shutdown),
        "both" => Ok(Kind::Liftoff | Kind::Shutdown),
        _ => Err(CaseError::Line),
    }
}

/// What is attached: a fairing of a kind that does what it says, or the shield.
#[derive(Clone, Copy, Drop)]
pub enum Attached {
    Actor(Kind, Act),
    Shield,
}

/// What `KIND ACT` or `shield` says.
pub fn read_attached(text: &str) -> Result<Attached, CaseError> {
    if text == "shield" {
        return Ok(Attached::Shield);
    }
    let (kind, act) = first_word(text);
    Ok(Attached::Actor(read_kind(kind)?, read_act(act)?))
}

impl Act {
    /// How it ends at liftoff, where the handle has seen this word and it was polled so often so far.
    pub fn lifted(self, seen: u64, polled: u32) -> Ending {
        match self {
            Act::Seen if seen == 0 => Ending::Fault,
            Act::Once if polled != 1 => Ending::Fault,
            _ => self.shut(),
        }
    }

    /// How it ends at a shutdown.
    pub fn shut(self) -> Ending {
        match self {
            Act::Fault => Ending::Fault,
            Act::Starve => Ending::Starved,
            _ => Ending::Done,
        }
    }
}
