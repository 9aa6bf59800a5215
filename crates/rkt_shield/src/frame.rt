ghost use Rattle.std.specs.Prelude.{◌≡◌};
ghost use Rattle.rkt_shield.specs.Frame.{frame_text};

use crate::policy::Policy;
use rkt_base::NoMemory;
use rkt_http::Header;
use std::alloc::Global;

/// Who may show the page in a frame.
#[derive(Debug, Drop)]
pub enum Frame {
    /// Pages of the same origin.
    SameOrigin,
    /// Nobody.
    Deny,
}

impl Frame {
    fn value(&self) -> &'static str
        ensures { result.now ≡ frame_text self.now }
    {
        match self {
            Frame::SameOrigin => "SAMEORIGIN",
            Frame::Deny => "DENY",
        }
    }
}

impl Default for Frame {
    ghost use Rattle.std.specs.Prelude.{◌≡◌};
    ghost use Rattle.rkt_shield.specs.declared.frame.Frame.TheVariants.{SameOrigin};

    ghost is_default = { λ policy. policy ≡ SameOrigin };

    fn default() -> Frame {
        Frame::SameOrigin
    }
}

impl Policy for Frame {
    ghost use Rattle.std.specs.Prelude.{codes};
    ghost use Rattle.rkt_shield.specs.Frame.{frame_text};

    ghost NAME = { codes "X-Frame-Options" };

    ghost text = { frame_text };

    fn name() -> &'static str {
        "X-Frame-Options"
    }

    fn header(&self, alloc: Global) -> Result<Header, NoMemory> {
        Header::new(alloc, Frame::name(), self.value())
    }
}
