/// How far a response has been sent.
#[derive(Clone, Copy, Debug, Drop, PartialEq, Eq)]
pub(crate) enum Stage {
    /// The head comes next.
    Head,
    /// A chunk of the body comes next, or the end.
    Body,
    /// The last answer was given.
    Done,
}
