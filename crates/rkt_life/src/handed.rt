/// Why a call that takes a rocket failed, with the rocket.
#[derive(Drop)]
pub struct Handed<R, E> {
    pub rocket: R,
    pub error: E,
}
