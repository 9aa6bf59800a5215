//! What a fairing does where it is called.
use cases::{CaseError, first_word, parsed};
use rkt_fairing::Kind;

/// What a fairing does where it is called.
#[derive(Clone, Copy, Debug, Drop)]
pub enum OrbitAct {
    Done,
    Fault,
    Starve,
    Pend(u32),
    Notify,
    Seen,
}

/// How an act ends once it is not Pending any more.
#[derive(Clone, Copy, Debug, Drop)]
pub enum Ending {
    Done,
    Fault,
    Starved,
}

fn read_plain(text: &str) -> Result<OrbitAct, CaseError> {
    match text {
        "done" => Ok(OrbitAct::Done),
        "fault" => Ok(OrbitAct::Fault),
        "starve" => Ok(OrbitAct::Starve),
        "notify" => Ok(OrbitAct::Notify),
        "seen" => Ok(OrbitAct::Seen),
        _ => Err(CaseError::Line),
    }
}

/// The act that a line says.
pub fn read_orbit_act(text: &str) -> Result<OrbitAct, CaseError> {
    let (name, rest) = first_word(text);
    if name == "pend" {
        return Ok(OrbitAct::Pend(parsed::<u32>(rest)?));
    }
    read_plain(text)
}

/// The kind that a word says.
pub fn read_kind(word: &str) -> Result<Kind, CaseError> {
    match word {
        "liftoff" => Ok(Kind::Liftoff),
        "shutdown" => Ok(Kind::Shutdown),
        "both" => Ok(Kind::Liftoff | Kind::Shutdown),
        _ => Err(CaseError::Line),
    }
}

impl OrbitAct {
    /// How it ends at liftoff, where the handle has seen this word.
    pub fn lifted(self, seen: u64) -> Ending {
        match self {
            OrbitAct::Seen if seen == 0 => Ending::Fault,
            _ => self.shut(),
        }
    }

    /// How it ends at a shutdown.
    pub fn shut(self) -> Ending {
        match self {
            OrbitAct::Fault => Ending::Fault,
            OrbitAct::Starve => Ending::Starved,
            _ => Ending::Done,
        }
    }
}
