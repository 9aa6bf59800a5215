/// An event at which a fairing is called.
#[derive(Clone, Copy, Debug, PartialEq, Eq, Drop)]
pub enum Callback {
    Ignite,
    Liftoff,
    Request,
    Response,
    Shutdown,
}
