use rkt_base::Seq;
use rkt_routing::Call;

/// Where an exchange stands: P is the type of peeks at a body, A that of calls for a request, R that of routing, and W that of
/// calls for a response.
#[derive(Drop)]
pub enum Phase<P, A, R, W> {
    /// The front of the request's body is peeked at.
    Peeking(P),
    /// Fairings are called for the request.
    Preprocessing(A),
    /// It is routed, behind these calls; `head` where its method was HEAD.
    Routing {
        routing: R,
        calls: Seq<Call>,
        head: bool,
    },
    /// A bad request is answered.
    Refusing(R),
    /// Fairings are called for the response, behind these calls; its cookies were sent at this moment.
    Finalizing {
        answering: W,
        calls: Seq<Call>,
        head: bool,
        moment: u64,
    },
}
