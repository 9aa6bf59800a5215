ghost use Rattle.std.specs.Prelude.{◌≡◌};
ghost use Rattle.rkt_media.specs.MediaText.{is_blank, is_quoted_byte};
ghost use Rattle.rkt_media.specs.MediaPlaces.{after_value};

use rkt_grammar::{Place, is_field_value_byte, is_token_byte};

/// Where a reader stands in a media type.
#[derive(Clone, Copy)]
pub(crate) enum MediaPlace {
    TopStart,
    Top,
    SubStart,
    /// In the subtype, or in a value that is a token.
    LastWord,
    Blank,
    Semicolon,
    Name,
    ValueStart,
    Quoted,
    Escaped,
    Closed,
}

pub(crate) fn is_space(byte: u8) -> bool
    ensures { result ≡ is_blank byte }
{
    byte == b' ' || byte == b'\t'
}

pub(crate) fn can_quote(byte: u8) -> bool
    ensures { result ≡ is_quoted_byte byte }
{
    is_field_value_byte(byte) && byte != b'"' && byte != b'\\'
}

pub(crate) fn behind_value(byte: u8) -> Option<MediaPlace>
    ensures { result ≡ after_value byte }
{
    if is_space(byte) {
        Some(MediaPlace::Blank)
    } else if byte == b';' {
        Some(MediaPlace::Semicolon)
    } else {
        None
    }
}

impl Place for MediaPlace {
    ghost use Rattle.rkt_media.specs.MediaPlaces.{place_after, may_end, rest_of};
    ghost use Rattle.rkt_media.specs.MediaPlaceLaws.{ends, goes_on, leads_on};

    ghost place_after = { place_after };

    ghost may_end = { may_end };

    ghost rest_of = { rest_of };

    fn after(self, byte: u8) -> Option<MediaPlace> {
        match self {
            MediaPlace::TopStart | MediaPlace::Top if is_token_byte(byte) => Some(MediaPlace::Top),
            MediaPlace::Top if byte == b'/' => Some(MediaPlace::SubStart),
            MediaPlace::SubStart | MediaPlace::LastWord | MediaPlace::ValueStart
                if is_token_byte(byte) => { Some(MediaPlace::LastWord) }
            MediaPlace::LastWord | MediaPlace::Blank | MediaPlace::Closed => behind_value(byte),
            MediaPlace::Semicolon if is_space(byte) => Some(MediaPlace::Semicolon),
            MediaPlace::Semicolon | MediaPlace::Name if is_token_byte(byte) => Some(
                MediaPlace::Name,
            ),
            MediaPlace::Name if byte == b'=' => Some(MediaPlace::ValueStart),
            MediaPlace::ValueStart if byte == b'"' => Some(MediaPlace::Quoted),
            MediaPlace::Quoted if byte == b'"' => Some(MediaPlace::Closed),
            MediaPlace::Quoted if byte == b'\\' => Some(MediaPlace::Escaped),
            MediaPlace::Quoted if can_quote(byte) => Some(MediaPlace::Quoted),
            MediaPlace::Escaped if is_field_value_byte(byte) => Some(MediaPlace::Quoted),
            _ => None,
        }
    }

    fn can_end(self) -> bool {
        matches!(self, MediaPlace::LastWord | MediaPlace::Closed)
    }

    ghost ends = { ends };

    ghost goes_on = { goes_on };

    ghost leads_on = { leads_on };
}
