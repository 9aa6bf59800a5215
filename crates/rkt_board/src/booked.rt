//! The board of a launch as a state behind a turn lock.
use crate::{BoardOf, InitialOf, Record, Served};
use rkt_link::{Clock, Listener};
use rkt_request::Types;
use rkt_turn::Booked;
use std::snapshot::Snapshot;

/// A board stands for its name, and its list is that of its records, each of the worker that entered it. Between two turns it
/// keeps what it keeps between any two events, and workers serve: what comes behind them is entered once they are done.
impl<A: Types, P: Served<A, L::Link>, L: Listener, C: Clock> Booked for BoardOf<A, P, L, C> {
    ghost use Rattle.rkt_board.specs.Board.{IsServing};
    ghost use Rattle.rkt_board.specs.Records.{Legal};

    // It takes no bytes, so that it can be made of the board's own.
    type Name = Snapshot<InitialOf<A, P, L, C>>;

    type Entry = Record<A, L::Link>;

    ghost name = { λ board. record { marker = record {}; value = board.name } };

    ghost entries = { λ board. board.log.records.items };

    ghost number = { λ logged. logged.by };

    ghost legal = { λ name records.
        Legal L.Link.meaning (P.cause name.value.served (C.meaning name.value.clock.value).window) records };

    ghost keeps = { IsServing L.Link.meaning L.meaning C.meaning P.cause };
}
