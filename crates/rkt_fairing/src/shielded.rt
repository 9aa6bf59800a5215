//! Headers that are added to a response.
ghost use Rattle.std.specs.Prelude.{◌≡◌, OnOk, OnErr};
ghost use Rattle.rkt_http.specs.Headers.{added};
ghost use Rattle.rkt_message.specs.Response.{with_headers};
ghost use Rattle.rkt_shield.specs.Shield.{IsByName};
ghost use Rattle.rkt_fairing.specs.InSlot.{shielded};

use rkt_base::NoMemory;
use rkt_data::Source;
use rkt_http::Header;
use rkt_message::Response;

fn adjoin_copy<S: Source>(header: &Header, response: &mut Response<S>) -> Result<(), NoMemory>
    ensures ok { OnOk result (response.new ≡ with_headers response.old (added response.old.headers header.now)) }
    ensures err { OnErr result (response.new ≡ response.old) }
{
    response.adjoin_raw_header(header.name().as_str(), header.value())
}

/// Adds each of a shield's headers whose name is not there. Where memory is short, those that were added are taken away again.
pub(crate) fn add_absent<S: Source>(
    headers: &[Header],
    response: &mut Response<S>,
) -> Result<(), NoMemory>
    requires { IsByName headers.now }
    ensures ok { OnOk result (response.new ≡ shielded headers.now response.old) }
    ensures err { OnErr result (response.new ≡ response.old) }
{
    let Some((first, others)) = headers.split_first() else {
        return Ok(());
    };
    let name = first.name().as_str();
    if response.headers().contains(name) {
        return add_absent(others, response);
    }
    adjoin_copy(first, response)?;
    let result = add_absent(others, response);
    if result.is_err() {
        response.remove_header(name);
    }
    result
}
