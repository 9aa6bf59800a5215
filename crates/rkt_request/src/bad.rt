/// What is wrong with a head.
#[derive(Clone, Copy, Debug, PartialEq, Eq)]
pub enum Bad {
    /// The method is none that has a name.
    BadMethod,
    /// The target is no origin.
    InvalidUri,
}
