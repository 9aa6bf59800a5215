use crate::same_site::SameSite;
use rkt_base::Text;

/// One attribute of a cookie, with what it says.
#[derive(Debug, Drop)]
pub(crate) enum Attribute {
    HttpOnly,
    SameSite(SameSite),
    Secure,
    Path(Text),
    Domain(Text),
    /// In seconds.
    MaxAge(u64),
    /// At a moment, in seconds since 1970.
    Expires(u64),
}
