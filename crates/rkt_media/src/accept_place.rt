ghost use Rattle.std.specs.Prelude.{◌≡◌};
ghost use Rattle.rkt_media.specs.AcceptText.{is_digit_to};
ghost use Rattle.rkt_media.specs.AcceptPlaces.{after_inside, behind_entry};

use crate::media_place::{MediaPlace, behind_value, is_space};
use rkt_grammar::{Place, is_token_byte};

/// Where a reader stands in a list of media types with weights.
#[derive(Clone, Copy)]
pub(crate) enum AcceptPlace {
    /// Before a media type or a comma.
    Between,
    /// In a media type, or behind a weight.
    Inside(MediaPlace),
    /// In a parameter's name that so far is `q`.
    WeightName,
    WeightStart,
    /// Behind a weight's first digit. The digits behind its point may be this one at most.
    Whole(u8),
    /// Behind its point. The digits may be this one at most, and there may be so many more.
    Digits(u8, u8),
}

fn can_be_digit(most: u8, byte: u8) -> bool
    ensures { result ≡ is_digit_to most byte }
{
    byte.is_ascii_digit() && byte <= most
}

/// The place behind one more byte, where a weight has ended.
fn behind_weight(byte: u8) -> Option<AcceptPlace>
    ensures { result ≡ behind_entry byte }
{
    if byte == b',' {
        return Some(AcceptPlace::Between);
    }
    match behind_value(byte) {
        Some(place) => Some(AcceptPlace::Inside(place)),
        None => None,
    }
}

/// The place behind one more byte of a media type.
fn inside(place: MediaPlace, byte: u8) -> Option<AcceptPlace>
    ensures { result ≡ after_inside place byte }
{
    match place {
        MediaPlace::LastWord | MediaPlace::Blank | MediaPlace::Closed if byte == b',' => {
            Some(AcceptPlace::Between)
        }
        MediaPlace::Semicolon if byte == b'q' || byte == b'Q' => Some(AcceptPlace::WeightName),
        _ => match place.after(byte) {
            Some(place) => Some(AcceptPlace::Inside(place)),
            None => None,
        },
    }
}

impl Place for AcceptPlace {
    ghost use Rattle.rkt_media.specs.AcceptPlaces.{place_after, may_end, rest_of};
    ghost use Rattle.rkt_media.specs.AcceptPlaceLaws.{ends, goes_on, leads_on};

    ghost place_after = { place_after };

    ghost may_end = { may_end };

    ghost rest_of = { rest_of };

    fn after(self, byte: u8) -> Option<AcceptPlace> {
        match self {
            AcceptPlace::Between if is_space(byte) || byte == b',' => Some(AcceptPlace::Between),
            AcceptPlace::Between if is_token_byte(byte) => Some(AcceptPlace::Inside(
                MediaPlace::Top,
            )),
            AcceptPlace::Inside(place) => inside(place, byte),
            AcceptPlace::WeightName if is_token_byte(byte) => {
                Some(AcceptPlace::Inside(MediaPlace::Name))
            }
            AcceptPlace::WeightName if byte == b'=' => Some(AcceptPlace::WeightStart),
            AcceptPlace::WeightStart if byte == b'0' => Some(AcceptPlace::Whole(b'9')),
            AcceptPlace::WeightStart if byte == b'1' => Some(AcceptPlace::Whole(b'0')),
            AcceptPlace::Whole(most) if byte == b'.' => Some(AcceptPlace::Digits(most, 3)),
            AcceptPlace::Digits(most, left) if left > 0 && can_be_digit(most, byte) => {
                Some(AcceptPlace::Digits(most, left - 1))
            }
            AcceptPlace::Whole(_) | AcceptPlace::Digits(_, _) => behind_weight(byte),
            _ => None,
        }
    }

    fn can_end(self) -> bool {
        match self {
            AcceptPlace::Between | AcceptPlace::Whole(_) | AcceptPlace::Digits(_, _) => true,
            AcceptPlace::Inside(place) => matches!(
                place,
                MediaPlace::LastWord | MediaPlace::Blank | MediaPlace::Closed
            ),
            AcceptPlace::WeightName | AcceptPlace::WeightStart => false,
        }
    }

    ghost ends = { ends };

    ghost goes_on = { goes_on };

    ghost leads_on = { leads_on };
}
