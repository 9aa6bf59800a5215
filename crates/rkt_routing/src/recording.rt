ghost use Rattle.std.specs.Prelude.{◌≡◌};
ghost use Rattle.rkt_routing.specs.Recorded.{recorded};

use crate::{Answer, Call, Which};
use rkt_request::{Ctx, Types};

/// What is recorded of a call, of which this is the answer.
pub fn recorded<T: Types>(ctx: &Ctx<T>, which: Which, answer: Answer) -> Call
    ensures { result ≡ recorded which answer ctx.now.kept }
{
    Call {
        which,
        answer,
        changes: ctx.cookies().log().len(),
        cached: ctx.cached(),
        word: ctx.word(),
    }
}
