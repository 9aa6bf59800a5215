ghost use Rattle.std.specs.Prelude.{◌≡◌};
ghost use Rattle.rkt_shield.specs.NoSniff.{no_sniff_text};

use crate::policy::Policy;
use rkt_base::NoMemory;
use rkt_http::Header;
use std::alloc::Global;

/// A content type is taken as it is told, and never guessed.
#[derive(Debug, Drop)]
pub enum NoSniff {
    Enable,
}

impl NoSniff {
    fn value(&self) -> &'static str
        ensures { result.now ≡ no_sniff_text self.now }
    {
        match self {
            NoSniff::Enable => "nosniff",
        }
    }
}

impl Default for NoSniff {
    ghost use Rattle.std.specs.Prelude.{◌≡◌};
    ghost use Rattle.rkt_shield.specs.declared.no_sniff.NoSniff.TheVariants.{Enable};

    ghost is_default = { λ policy. policy ≡ Enable };

    fn default() -> NoSniff {
        NoSniff::Enable
    }
}

impl Policy for NoSniff {
    ghost use Rattle.std.specs.Prelude.{codes};
    ghost use Rattle.rkt_shield.specs.NoSniff.{no_sniff_text};

    ghost NAME = { codes "X-Content-Type-Options" };

    ghost text = { no_sniff_text };

    fn name() -> &'static str {
        "X-Content-Type-Options"
    }

    fn header(&self, alloc: Global) -> Result<Header, NoMemory> {
        Header::new(alloc, NoSniff::name(), self.value())
    }
}
