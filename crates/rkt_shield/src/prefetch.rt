ghost use Rattle.std.specs.Prelude.{◌≡◌};
ghost use Rattle.rkt_shield.specs.Prefetch.{prefetch_text};

use crate::policy::Policy;
use rkt_base::NoMemory;
use rkt_http::Header;
use std::alloc::Global;

/// Whether names in links are looked up before a link is followed.
#[derive(Debug, Drop)]
pub enum Prefetch {
    Off,
    On,
}

impl Prefetch {
    fn value(&self) -> &'static str
        ensures { result.now ≡ prefetch_text self.now }
    {
        match self {
            Prefetch::Off => "off",
            Prefetch::On => "on",
        }
    }
}

impl Default for Prefetch {
    ghost use Rattle.std.specs.Prelude.{◌≡◌};
    ghost use Rattle.rkt_shield.specs.declared.prefetch.Prefetch.TheVariants.{Off};

    ghost is_default = { λ policy. policy ≡ Off };

    fn default() -> Prefetch {
        Prefetch::Off
    }
}

impl Policy for Prefetch {
    ghost use Rattle.std.specs.Prelude.{codes};
    ghost use Rattle.rkt_shield.specs.Prefetch.{prefetch_text};

    ghost NAME = { codes "X-DNS-Prefetch-Control" };

    ghost text = { prefetch_text };

    fn name() -> &'static str {
        "X-DNS-Prefetch-Control"
    }

    fn header(&self, alloc: Global) -> Result<Header, NoMemory> {
        Header::new(alloc, Prefetch::name(), self.value())
    }
}
