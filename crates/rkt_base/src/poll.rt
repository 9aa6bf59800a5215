/// What a poll answers: a value, or that it has to be polled again.
#[derive(Debug, Drop, PartialEq, Eq)]
pub enum Poll<T> {
    Ready(T),
    Pending,
}
