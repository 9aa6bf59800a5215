ghost use Rattle.std.specs.Prelude.{◌≡◌, IfOk, codes, option_copied};
ghost use Rattle.rkt_route.specs.Segment.{segment_of, dynamic_segment, without_front, without_end, in_brackets};

use rkt_base::{NoMemory, Text};
use std::alloc::Global;

/// A segment of a route: a text that stands for itself, or the name of a dynamic one.
#[derive(Debug, Drop)]
pub struct Segment {
    pub value: Text,
    pub dynamic: bool,
    pub trailing: bool,
}

/// What stands in angle brackets, if the text does.
fn in_brackets(text: &str) -> Option<&str>
    ensures { option_copied result ≡ in_brackets text.now }
{
    text.strip_prefix("<")?.strip_suffix(">")
}

/// The name before two dots, if these are at its end.
fn before_dots(name: &str) -> Option<&str>
    ensures { option_copied result ≡ without_end (codes "..") name.now }
{
    name.strip_suffix("..")
}

/// The dynamic segment of a name, which is trailing where two dots end it.
fn dynamic(alloc: Global, name: &str) -> Result<Segment, NoMemory>
    ensures { IfOk result (λ s. s ≡ dynamic_segment name.now (without_end (codes "..") name.now)) }
{
    let front = before_dots(name);
    Ok(Segment {
        value: Text::new(alloc, front.unwrap_or(name))?,
        dynamic: true,
        trailing: front.is_some(),
    })
}

impl Segment {
    /// The segment that a text of a path or a query writes.
    pub fn from(alloc: Global, text: &str) -> Result<Segment, NoMemory>
        ensures { IfOk result (λ s. s ≡ segment_of text.now) }
    {
        match in_brackets(text) {
            Some(name) => dynamic(alloc, name),
            None => Ok(Segment {
                value: Text::new(alloc, text)?,
                dynamic: false,
                trailing: false,
            }),
        }
    }
}
