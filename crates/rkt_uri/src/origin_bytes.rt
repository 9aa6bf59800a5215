ghost use Rattle.std.specs.Prelude.{◌≡◌};
ghost use Rattle.rkt_uri.specs.Origin.{is_path_byte, is_query_byte};

use crate::origin_place::Profile;

pub(crate) fn is_path(profile: Profile, byte: u8) -> bool
    ensures { result ≡ is_path_byte profile byte }
{
    byte.is_ascii_alphanumeric()
        || b"-._~%!$&'()*+,;=:@/".contains(&byte)
        || match profile {
            Profile::Request => false,
            Profile::Route => byte == b'<' || byte == b'>',
        }
}

pub(crate) fn is_query(profile: Profile, byte: u8) -> bool
    ensures { result ≡ is_query_byte profile byte }
{
    is_path(profile, byte) || b"?[]{}|\\^`".contains(&byte)
}
