/// To which requests from other sites a cookie is sent along.
#[derive(Clone, Copy, Debug, PartialEq, Eq)]
pub enum SameSite {
    /// To none.
    Strict,
    /// To those that navigate to this site.
    Lax,
    /// To all.
    None,
}
