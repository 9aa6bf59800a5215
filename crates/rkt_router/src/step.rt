/// What one poll of a callback answers.
#[derive(Debug, Drop)]
pub enum Step<O> {
    /// It has to be polled again.
    Pending,
    Done(O),
    /// It fails its turn.
    Fault,
    /// There was no memory.
    Starved,
}
