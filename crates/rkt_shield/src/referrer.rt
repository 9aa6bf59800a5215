ghost use Rattle.std.specs.Prelude.{◌≡◌};
ghost use Rattle.rkt_shield.specs.Referrer.{referrer_text};

use crate::policy::Policy;
use rkt_base::NoMemory;
use rkt_http::Header;
use std::alloc::Global;

/// How much of the address of a page its links and parts tell as the referrer.
#[derive(Debug, Drop)]
pub enum Referrer {
    NoReferrer,
    NoReferrerWhenDowngrade,
    Origin,
    OriginWhenCrossOrigin,
    SameOrigin,
    StrictOrigin,
    StrictOriginWhenCrossOrigin,
    UnsafeUrl,
}

impl Referrer {
    fn value(&self) -> &'static str
        ensures { result.now ≡ referrer_text self.now }
    {
        match self {
            Referrer::NoReferrer => "no-referrer",
            Referrer::NoReferrerWhenDowngrade => "no-referrer-when-downgrade",
            Referrer::Origin => "origin",
            Referrer::OriginWhenCrossOrigin => "origin-when-cross-origin",
            Referrer::SameOrigin => "same-origin",
            Referrer::StrictOrigin => "strict-origin",
            Referrer::StrictOriginWhenCrossOrigin => "strict-origin-when-cross-origin",
            Referrer::UnsafeUrl => "unsafe-url",
        }
    }
}

impl Default for Referrer {
    ghost use Rattle.std.specs.Prelude.{◌≡◌};
    ghost use Rattle.rkt_shield.specs.declared.referrer.Referrer.TheVariants.{NoReferrer};

    ghost is_default = { λ policy. policy ≡ NoReferrer };

    fn default() -> Referrer {
        Referrer::NoReferrer
    }
}

impl Policy for Referrer {
    ghost use Rattle.std.specs.Prelude.{codes};
    ghost use Rattle.rkt_shield.specs.Referrer.{referrer_text};

    ghost NAME = { codes "Referrer-Policy" };

    ghost text = { referrer_text };

    fn name() -> &'static str {
        "Referrer-Policy"
    }

    fn header(&self, alloc: Global) -> Result<Header, NoMemory> {
        Header::new(alloc, Referrer::name(), self.value())
    }
}
