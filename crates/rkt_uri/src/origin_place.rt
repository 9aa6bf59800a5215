ghost use Rattle.std.specs.Prelude.{◌≡◌};

use crate::origin_bytes::{is_path, is_query};
use rkt_grammar::Place;

/// Which texts are origins: a route's may have angle brackets.
#[derive(Clone, Copy)]
pub enum Profile {
    Request,
    Route,
}

/// Where a reader stands in an origin.
#[derive(Clone, Copy)]
pub(crate) enum OriginPlace {
    Start(Profile),
    InPath(Profile),
    InQuery(Profile),
}

impl Place for OriginPlace {
    ghost use Rattle.rkt_uri.specs.OriginPlaces.{place_after, may_end, rest_of};
    ghost use Rattle.rkt_uri.specs.OriginPlaceLaws.{ends, goes_on, leads_on};

    ghost place_after = { place_after };

    ghost may_end = { may_end };

    ghost rest_of = { rest_of };

    fn after(self, byte: u8) -> Option<OriginPlace> {
        match self {
            OriginPlace::Start(profile) if byte == b'/' => Some(OriginPlace::InPath(profile)),
            OriginPlace::InPath(profile) if byte == b'?' => Some(OriginPlace::InQuery(profile)),
            OriginPlace::InPath(profile) if is_path(profile, byte) => Some(self),
            OriginPlace::InQuery(profile) if is_query(profile, byte) => Some(self),
            _ => None,
        }
    }

    fn can_end(self) -> bool {
        !matches!(self, OriginPlace::Start(_))
    }

    ghost ends = { ends };

    ghost goes_on = { goes_on };

    ghost leads_on = { leads_on };
}
