//! What an exchange did, and how it ended.
use rkt_base::Seq;
use rkt_cookie::CookieJar;
use rkt_http::Key;
use rkt_message::Response;
use rkt_request::Types;
use rkt_routing::Call;
use rkt_turn::Shutdown;

/// The calls of one exchange, in order, and what they left behind.
#[derive(Drop)]
pub struct RunOf<C> {
    pub calls: Seq<Call>,
    pub jar: CookieJar,
    /// In the order in which they were cached.
    pub cache: Seq<(Key, C)>,
    /// The moment at which the pending cookies were sent, and for a bad request that at which the exchange ended.
    pub moment: u64,
}

/// A run of an application's exchange.
pub type Run<A> = RunOf<<A as Types>::Cached>;

/// How an exchange ended. It hands the wire's handle back in either way.
#[derive(Drop)]
pub enum EndedOf<C, S, W> {
    Finished {
        run: RunOf<C>,
        response: Response<S>,
        shutdown: W,
    },
    /// There was no memory.
    Starved {
        shutdown: W,
    },
}

/// How an application's exchange ended.
pub type Ended<A> = EndedOf<
    <A as Types>::Cached,
    <A as Types>::Stream,
    Shutdown<<A as Types>::Reason>,
>;
