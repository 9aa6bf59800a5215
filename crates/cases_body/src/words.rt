//! The parts of a line.
use cases::{CaseError, cut, pair, parsed};
use rkt_data::Gate;

/// What stands before the first bar with its blanks, and behind it.
pub fn first_step(text: &str) -> (&str, &str) {
    cut(text, " | ")
}

/// What stands before the last bar with its blanks, and behind it.
pub fn last_step(text: &str) -> (&str, &str) {
    match text.rsplit_once(" | ") {
        Some((rest, step)) => (rest, step),
        None => ("", text),
    }
}

/// What stands on both sides of a plus sign with its blanks.
pub fn both_sides(text: &str) -> Result<(&str, &str), CaseError> {
    pair(text, " + ")
}

/// The text between quotes, and what stands behind them.
pub fn quoted(text: &str) -> Result<(&str, &str), CaseError> {
    match text.strip_prefix('"') {
        Some(inner) => pair(inner, "\""),
        None => Err(CaseError::Line),
    }
}

/// A Gate at a moment, with no trip.
pub fn open_gate(moment: u64) -> Gate {
    Gate {
        moment,
        tripped: None,
        grace: 0,
        mercy: 0,
    }
}

/// The trip of `WORD+GRACE+MERCY` at a moment.
fn tripped_gate(moment: u64, text: &str) -> Result<Gate, CaseError> {
    let (word, rest) = pair(text, "+")?;
    let (grace, mercy) = pair(rest, "+")?;
    Ok(Gate {
        moment,
        tripped: Some(parsed::<u64>(word)?),
        grace: parsed::<u32>(grace)?,
        mercy: parsed::<u32>(mercy)?,
    })
}

/// The Gate of `@MOMENT` or `@MOMENT!WORD+GRACE+MERCY`; that of the moment 0 where nothing is said.
pub fn parse_gate(text: &str) -> Result<Gate, CaseError> {
    if text.is_empty() {
        return Ok(open_gate(0));
    }
    let Some(text) = text.strip_prefix('@') else {
        return Err(CaseError::Line);
    };
    match text.split_once('!') {
        None => Ok(open_gate(parsed::<u64>(text)?)),
        Some((moment, trip)) => tripped_gate(parsed::<u64>(moment)?, trip),
    }
}
