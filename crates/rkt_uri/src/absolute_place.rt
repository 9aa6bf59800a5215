ghost use Rattle.std.specs.Prelude.{◌≡◌};
ghost use Rattle.rkt_uri.specs.Absolute.{is_scheme_byte, is_user_byte};
ghost use Rattle.rkt_uri.specs.AbsolutePlaces.{tail_after, host_after, front_after};
ghost use Rattle.rkt_uri.specs.HostPlaces as host;

use crate::host_place::{HostPlace, is_name};
use crate::origin_bytes::is_path;
use crate::origin_place::{OriginPlace, Profile};
use rkt_grammar::Place;

/// Where a reader stands in an absolute URI.
#[derive(Clone, Copy)]
pub(crate) enum AbsolutePlace {
    Start,
    Scheme,
    /// Behind the scheme's colon.
    Hierarchy,
    /// Behind one slash.
    Slash,
    Path,
    /// In what so far may be a host as well as a user part.
    Front(HostPlace),
    /// In what can only be a user part.
    User,
    /// In what can only be a host.
    Host(HostPlace),
    /// Behind the host and its port.
    Origin(OriginPlace),
}

fn is_scheme(byte: u8) -> bool
    ensures { result ≡ is_scheme_byte byte }
{
    byte.is_ascii_alphanumeric() || b"+-.".contains(&byte)
}

fn is_user(byte: u8) -> bool
    ensures { result ≡ is_user_byte byte }
{
    is_name(byte) || byte == b':'
}

/// The place behind the first byte of an origin, which may be a query alone.
fn in_tail(byte: u8) -> Option<AbsolutePlace>
    ensures { result ≡ tail_after byte }
{
    match byte {
        b'/' => Some(AbsolutePlace::Origin(OriginPlace::InPath(Profile::Request))),
        b'?' => Some(AbsolutePlace::Origin(OriginPlace::InQuery(Profile::Request))),
        _ => None,
    }
}

fn in_host(place: HostPlace, byte: u8) -> Option<AbsolutePlace>
    ensures { result ≡ host_after (host.place_after place byte) (host.may_end place) byte }
{
    match place.after(byte) {
        Some(next) => Some(AbsolutePlace::Host(next)),
        None if place.can_end() => in_tail(byte),
        None => None,
    }
}

fn in_front(place: HostPlace, byte: u8) -> Option<AbsolutePlace>
    ensures { result ≡ front_after (host.place_after place byte) (host.may_end place) byte }
{
    match place.after(byte) {
        Some(next) if is_user(byte) => Some(AbsolutePlace::Front(next)),
        Some(next) => Some(AbsolutePlace::Host(next)),
        None if is_user(byte) => Some(AbsolutePlace::User),
        None if byte == b'@' => Some(AbsolutePlace::Host(HostPlace::MaybeEmpty)),
        None if place.can_end() => in_tail(byte),
        None => None,
    }
}

impl Place for AbsolutePlace {
    ghost use Rattle.rkt_uri.specs.AbsolutePlaces.{place_after, may_end, rest_of};
    ghost use Rattle.rkt_uri.specs.AbsolutePlaceLaws.{ends, goes_on, leads_on};

    ghost place_after = { place_after };

    ghost may_end = { may_end };

    ghost rest_of = { rest_of };

    fn after(self, byte: u8) -> Option<AbsolutePlace> {
        match self {
            AbsolutePlace::Start if byte.is_ascii_alphabetic() => Some(AbsolutePlace::Scheme),
            AbsolutePlace::Scheme if byte == b':' => Some(AbsolutePlace::Hierarchy),
            AbsolutePlace::Scheme if is_scheme(byte) => Some(self),
            AbsolutePlace::Hierarchy if byte == b'/' => Some(AbsolutePlace::Slash),
            AbsolutePlace::Slash if byte == b'/' => {
                Some(AbsolutePlace::Front(HostPlace::MaybeEmpty))
            }
            AbsolutePlace::Hierarchy | AbsolutePlace::Slash | AbsolutePlace::Path
                if is_path(Profile::Request, byte) => { Some(AbsolutePlace::Path) }
            AbsolutePlace::Front(place) => in_front(place, byte),
            AbsolutePlace::User if byte == b'@' => Some(AbsolutePlace::Host(HostPlace::MaybeEmpty)),
            AbsolutePlace::User if is_user(byte) => Some(self),
            AbsolutePlace::Host(place) => in_host(place, byte),
            AbsolutePlace::Origin(place) => place.after(byte).map(AbsolutePlace::Origin),
            _ => None,
        }
    }

    fn can_end(self) -> bool {
        match self {
            AbsolutePlace::Start | AbsolutePlace::Scheme | AbsolutePlace::User => false,
            AbsolutePlace::Hierarchy | AbsolutePlace::Slash | AbsolutePlace::Path => true,
            AbsolutePlace::Front(place) | AbsolutePlace::Host(place) => place.can_end(),
            AbsolutePlace::Origin(place) => place.can_end(),
        }
    }

    ghost ends = { ends };

    ghost goes_on = { goes_on };

    ghost leads_on = { leads_on };
}
