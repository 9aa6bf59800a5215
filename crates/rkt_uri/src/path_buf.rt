ghost use Rattle.std.specs.Prelude.{◌≡◌, ◌||◌, map, IfOk, OnOk, [], ◌++◌, ◌∷◌};
ghost use Rattle.std.specs.List.{join_with_byte};
ghost use Rattle.rkt_base.specs.Want.{Gives};
ghost use Rattle.rkt_grammar.specs.Bytes.{slash};
ghost use Rattle.rkt_uri.specs.PathBuf.{is_here as is_here_of, name_fault as name_fault_of, fault_of, fault_in, with_segment, names_left, path_of_names};
ghost use Rattle.rkt_uri.specs.FileNames.{GoesDown};
ghost use Rattle.rkt_uri.specs.Origin.{led};

use rkt_base::{NoMemory, Text, Want};
use std::alloc::Global;
use std::marker::Model;
use thiserror::Error;

/// A path of the file system, whose names are parted by slashes.
#[derive(Debug, Drop)]
pub struct PathBuf(Text);

impl Model for PathBuf {
    ghost use Rattle.std.specs.Prelude.{List, ℕ};
    ghost use Rattle.rkt_uri.specs.FileNames.{GoesDown};

    ghost Value = { List ℕ };

    ghost view = { λ p. p.0 };

    ghost invariant = { λ p. GoesDown p.0 };
}

impl PathBuf {
    pub fn as_str(&self) -> &str
        ensures value { result.now ≡ self.now }
        // No name of it is empty, a dot or two dots, or has a slash. It may have a NUL.
        ensures down { GoesDown result.now }
    {
        self.0.as_str()
    }
}

/// Why a segment is no name of a file.
#[derive(Clone, Copy, Debug, PartialEq, Eq, Error)]
pub enum PathError {
    #[error("the segment begins with {0}")]
    BadStart(char),
    #[error("the segment contains {0}")]
    BadChar(char),
    #[error("the segment ends with {0}")]
    BadEnd(char),
}

/// Whether a segment stays where the path is.
fn is_here(segment: &str) -> bool
    ensures { result ≡ is_here_of segment.now }
{
    segment.is_empty() || segment == "."
}

/// What is wrong with a name, if anything is.
fn name_fault(dots: bool, name: &str) -> Option<PathError>
    ensures { result ≡ name_fault_of dots name.now }
{
    let bytes = name.as_bytes();
    if bytes.is_empty() {
        return None;
    }
    let first = bytes[0];
    let last = bytes[bytes.len() - 1];
    if first == b'.' && !dots {
        Some(PathError::BadStart('.'))
    } else if first == b'*' {
        Some(PathError::BadStart('*'))
    } else if last == b':' {
        Some(PathError::BadEnd(':'))
    } else if last == b'>' {
        Some(PathError::BadEnd('>'))
    } else if last == b'<' {
        Some(PathError::BadEnd('<'))
    } else if bytes.contains(&b'/') {
        Some(PathError::BadChar('/'))
    } else {
        None
    }
}

/// What is wrong with a segment, if anything is.
fn fault(dots: bool, segment: &str) -> Option<PathError>
    ensures { result ≡ fault_of dots segment.now }
{
    if is_here(segment) || segment == ".." {
        None
    } else {
        name_fault(dots, segment)
    }
}

/// What is wrong with the first segment that is wrong.
fn first_fault(dots: bool, segments: &[Text]) -> Option<PathError>
    ensures { result ≡ fault_in dots segments.now }
{
    for segment in segments {
        if let Some(error) = fault(dots, segment.as_str()) {
            return Some(error);
        }
    }
    None
}

/// Goes on by one more segment.
fn take<'a>(kept: &mut Vec<&'a str>, segment: &'a str) -> Result<(), NoMemory>
    ensures { OnOk result
        (map (λ name. name.now) kept.new.items ≡ with_segment (map (λ name. name.now) kept.old.items) segment.now) }
{
    if is_here(segment) {
        return Ok(());
    }
    if segment == ".." {
        kept.pop();
        return Ok(());
    }
    kept.push(segment)?;
    Ok(())
}

/// The names that segments leave, in order.
fn walk(alloc: Global, segments: &[Text]) -> Result<Vec<&str>, NoMemory>
    ensures { IfOk result (λ names. map (λ name. name.now) names.items ≡ names_left segments.now) }
{
    let mut kept: Vec<&str> = Vec::new(alloc);
    for segment in segments {
        take(&mut kept, segment.as_str())?;
    }
    Ok(kept)
}

/// The names with slashes between them.
fn join(alloc: Global, names: &[&str]) -> Result<Text, NoMemory>
    ensures { IfOk result (λ text. text ≡ join_with_byte slash (map (λ name. name.now) names.now)) }
{
    let Some((first, others)) = names.split_first() else {
        return Text::new(alloc, "");
    };
    let mut text = Text::new(alloc, first)?;
    push_behind(&mut text, others)?;
    Ok(text)
}

/// Adds the names, each behind a slash.
fn push_behind(text: &mut Text, names: &[&str]) -> Result<(), NoMemory>
    ensures { OnOk result (text.new ≡ text.old ++ led slash (map (λ name. name.now) names.now)) }
{
    for name in names {
        text.push_str("/")?;
        text.push_str(name)?;
    }
    Ok(())
}

/// The path of these segments.
pub(crate) fn path_of(
    alloc: Global,
    dots: bool,
    segments: &[Text],
) -> Result<PathBuf, Want<PathError>>
    ensures value { Gives (λ path. path) result (path_of_names dots segments.now) }
    ensures down { IfOk result GoesDown }
{
    match first_fault(dots, segments) {
        Some(error) => Err(Want::Refused(error)),
        None => {
            let names = walk(alloc, segments)?;
            Ok(PathBuf(join(alloc, names.as_slice())?))
        }
    }
}
