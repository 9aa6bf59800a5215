//! What an application means, by one name each.
use rkt_fairing::App;
use rkt_link::Link;

/// What an exchange of an application goes by. Every application has it.
pub trait Exchanges: App {
    ghost use Rattle.rkt_source.specs.Cancel.{Cancellable};
    ghost use Rattle.rkt_data.specs.Body.{Body};
    ghost use Rattle.rkt_exchange.specs.Relations.{Relations};
    ghost use Rattle.rkt_router.specs.Calls.{GateRule};

    /// What its sources and its callbacks mean, under the Gates of a rule.
    ghost callbacks: { GateRule → Relations Self.Value (Body (Cancellable Self.Source)) Self.Cached Self.Stream Self.Fairing
        Self.Fairing.Requests.Task Self.Fairing.Responses.Task Self.Handler Self.Handler.Task Self.Catch Self.Catch.Task };
}

impl<A: App> Exchanges for A {
    ghost use Rattle.rkt_exchange.specs.Relations.{relations_of};

    ghost callbacks = { relations_of A.Source.meaning A.Fairing.Requests.calling A.Fairing.Responses.calling A.Handler.calling
        A.Catch.calling };
}

/// What a launch of an application goes by that serves links of one kind. Every application has it for each.
pub trait Serves<K: Link>: App {
    ghost use Rattle.std.specs.Prelude.{ℕ, Option};
    ghost use Rattle.rkt_worker.specs.Serving.{Launching, Serving};

    /// What stands behind an entry, under a clock with this window.
    ghost serving: { Option (ℕ × ℕ) → Serving Self.Value Self.Source Self.Cached Self.Stream Self.Fairing
        Self.Fairing.Requests.Task Self.Fairing.Responses.Task Self.Handler Self.Handler.Task Self.Catch Self.Catch.Task K };

    /// What stands behind a history: that, the words that its reason allows, and how its fairings are called at a shutdown.
    ghost launching: { Option (ℕ × ℕ) → Launching Self.Value Self.Source Self.Cached Self.Stream Self.Fairing
        Self.Fairing.Requests.Task Self.Fairing.Responses.Task Self.Fairing.Shuts.Task Self.Handler Self.Handler.Task
        Self.Catch Self.Catch.Task Self.Sentinel K };
}

impl<A: App, K: Link> Serves<K> for A {
    ghost use Rattle.rkt_worker.specs.Serving.{launching, serving};

    ghost serving = { serving A.Fairing.Requests.calling A.Fairing.Responses.calling A.Handler.calling A.Catch.calling
        A.Source.meaning A.Stream.meaning K.meaning };

    ghost launching = { λ window. launching A.Reason.allowed A.Fairing.Shuts.calling (serving A.Fairing.Requests.calling
        A.Fairing.Responses.calling A.Handler.calling A.Catch.calling A.Source.meaning A.Stream.meaning K.meaning window) };
}
