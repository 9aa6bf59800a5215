use rkt_data::{CancellableIo, Data, Source};
use rkt_turn::Reason;

/// The types that an application chooses.
pub trait Types {
    /// Where the body of a request comes from.
    type Source: Source;

    /// Where a streamed body of a response comes from.
    type Stream: Source;

    /// What a request's cache keeps.
    type Cached: Copy;

    /// What a server manages under a key.
    type Value: Drop;

    /// Why a server shuts down.
    type Reason: Reason;
}

/// The body of a request, whose source may be cut off.
pub type Body0<T> = Data<CancellableIo<<T as Types>::Source>>;

/// `Body0` by a name of its own. A trait whose method takes a body says `T::Body`, and its impls say `Body0<T>`.
pub trait HasBody: Types {
    ghost use Rattle.std.specs.Prelude.{List, Option, ℕ};

    type Body: Drop;

    /// All bytes of a body, where its source tells them.
    ghost whole: { Self.Body → Option (List ℕ) };
}

impl<T: Types> HasBody for T {
    ghost use Rattle.rkt_source.specs.Cancel.{cut_meaning};
    ghost use Rattle.rkt_data.specs.CountedSource.{body};

    type Body = Body0<T>;

    ghost whole = { λ b. body (λ c. cut_meaning c.stage (T.Source.meaning c.io)) b.held b.tap };
}
