//! What is mounted as a handler, or registered as a catcher.
ghost use Rattle.std.specs.Prelude.{◌≡◌};

use rkt_life::{Answering, AnsweringData, AnsweringIf, AnsweringWith};

/// What stands for a handler, or a catcher, of type H: that itself, or a page that answers as such a handler does.
pub trait IntoHandler<H> {
    /// The handler that it stands for.
    ghost handler: { Self → H };

    fn into_handler(self) -> H
        ensures { result ≡ handler self };
}

impl<H> IntoHandler<H> for H {
    ghost handler = { λ handler. handler };

    fn into_handler(self) -> H {
        self
    }
}

impl<P> IntoHandler<Answering<P>> for P {
    ghost handler = { λ page. record { 0 = page } };

    fn into_handler(self) -> Answering<P> {
        Answering(self)
    }
}

impl<P> IntoHandler<AnsweringWith<P>> for P {
    ghost handler = { λ page. record { 0 = page } };

    fn into_handler(self) -> AnsweringWith<P> {
        AnsweringWith(self)
    }
}

impl<P> IntoHandler<AnsweringIf<P>> for P {
    ghost handler = { λ page. record { 0 = page } };

    fn into_handler(self) -> AnsweringIf<P> {
        AnsweringIf(self)
    }
}

impl<P> IntoHandler<AnsweringData<P>> for P {
    ghost handler = { λ page. record { 0 = page } };

    fn into_handler(self) -> AnsweringData<P> {
        AnsweringData(self)
    }
}
