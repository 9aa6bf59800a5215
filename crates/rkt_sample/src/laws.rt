//! Laws of what the routes and the catchers answer. Their functions do nothing.
ghost use Rattle.rkt_sample.specs.Laws.{CatchersAnswer, ReadsAge, RoutesReply};

use rkt_param::FromParam;

/// A law of the routes: a whole call, of a body whose source never fails, under Gates without a trip or with moments within one
/// grace, is done, and replies and leaves one thing.
pub fn routes_reply()
    ensures { RoutesReply }
{}

/// A law of the catchers: a whole call is done, and answers and leaves one thing.
pub fn catchers_answer()
    ensures { CatchersAnswer }
{}

/// A law of ages: a parameter reads just the age that its text writes.
pub fn param_reads_age()
    ensures { ReadsAge ⟦<u8 as FromParam>⟧.reads }
{}
