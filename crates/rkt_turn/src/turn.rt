/// The state, while a pass has the turn. It has no `Drop`: only `leave` spends it.
pub struct Turn<S> {
    pub(crate) state: S,
}
