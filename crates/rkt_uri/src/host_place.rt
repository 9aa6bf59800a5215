ghost use Rattle.std.specs.Prelude.{◌≡◌, ◌≤◌};
ghost use Rattle.rkt_uri.specs.Host.{is_name_byte, is_address_byte, is_port_digit, with_digit};
ghost use Rattle.rkt_uri.specs.HostPlaces.{port_after, in_port as in_port_of};

use rkt_grammar::Place;

/// Where a reader stands in a host.
#[derive(Clone, Copy)]
pub(crate) enum HostPlace {
    Start,
    /// Before a host that may be empty.
    MaybeEmpty,
    Name,
    Address,
    Closed,
    Colon,
    /// In a port that so far is this number.
    Port(u16),
}

pub(crate) fn is_name(byte: u8) -> bool
    ensures { result ≡ is_name_byte byte }
{
    byte.is_ascii_alphanumeric() || b"-._~%!$&'()*+,;=".contains(&byte)
}

pub(crate) fn is_address(byte: u8) -> bool
    ensures { result ≡ is_address_byte byte }
{
    matches!(byte, b'0'..=b'9' | b'A'..=b'F' | b'a'..=b'f' | b':' | b'.')
}

/// The port with one more digit, if it stays one.
pub(crate) fn more_port(port: u16, byte: u8) -> Option<u16>
    ensures { result ≡ port_after port byte }
{
    if !byte.is_ascii_digit() {
        return None;
    }
    let next = 10 * u32::from(port) + u32::from(byte - b'0');
    if next <= 65535 {
        Some(next as u16)
    } else {
        None
    }
}

fn in_port(port: u16, byte: u8) -> Option<HostPlace>
    ensures { result ≡ in_port_of port byte }
{
    more_port(port, byte).map(HostPlace::Port)
}

impl Place for HostPlace {
    ghost use Rattle.rkt_uri.specs.HostPlaces.{place_after, may_end, rest_of};
    ghost use Rattle.rkt_uri.specs.HostPlaceLaws.{ends, goes_on, leads_on};

    ghost place_after = { place_after };

    ghost may_end = { may_end };

    ghost rest_of = { rest_of };

    fn after(self, byte: u8) -> Option<HostPlace> {
        match self {
            HostPlace::Start | HostPlace::MaybeEmpty if byte == b'[' => Some(HostPlace::Address),
            HostPlace::MaybeEmpty | HostPlace::Name if byte == b':' => Some(HostPlace::Colon),
            HostPlace::Start | HostPlace::MaybeEmpty | HostPlace::Name if is_name(byte) => {
                Some(HostPlace::Name)
            }
            HostPlace::Address if byte == b']' => Some(HostPlace::Closed),
            HostPlace::Address if is_address(byte) => Some(HostPlace::Address),
            HostPlace::Closed if byte == b':' => Some(HostPlace::Colon),
            HostPlace::Colon => in_port(0, byte),
            HostPlace::Port(port) => in_port(port, byte),
            _ => None,
        }
    }

    fn can_end(self) -> bool {
        matches!(
            self,
            HostPlace::MaybeEmpty | HostPlace::Name | HostPlace::Closed | HostPlace::Port(_)
        )
    }

    ghost ends = { ends };

    ghost goes_on = { goes_on };

    ghost leads_on = { leads_on };
}
