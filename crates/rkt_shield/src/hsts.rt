ghost use Rattle.std.specs.Prelude.{◌≡◌, IfOk, string_bytes};
ghost use Rattle.rkt_shield.specs.Hsts.{hsts_text};

use crate::age::aged;
use crate::policy::Policy;
use rkt_base::NoMemory;
use rkt_http::Header;
use std::alloc::Global;

/// For how many seconds a browser asks the site by HTTPS alone (RFC 6797).
#[derive(Clone, Copy, Debug, PartialEq, Eq)]
pub enum Hsts {
    Enable(u64),
    /// The sites below it too.
    IncludeSubDomains(u64),
    /// The same, for a list that browsers bring along, which asks for a year at least.
    Preload(u64),
}

impl Hsts {
    /// The seconds of a year of 365 days.
    const YEAR: u64 = 31_536_000;

    fn value(&self, alloc: Global) -> Result<String, NoMemory>
        ensures { IfOk result (λ value. string_bytes value ≡ hsts_text self.now) }
    {
        match *self {
            Hsts::Enable(age) => aged(alloc, age, ""),
            Hsts::IncludeSubDomains(age) => aged(alloc, age, "; includeSubDomains"),
            Hsts::Preload(age) => {
                aged(alloc, age.max(Hsts::YEAR), "; includeSubDomains; preload")
            }
        }
    }
}

impl Default for Hsts {
    ghost use Rattle.std.specs.Prelude.{◌≡◌};
    ghost use Rattle.rkt_shield.specs.declared.hsts.Hsts.TheVariants.{Enable};

    ghost is_default = { λ policy. policy ≡ Enable 31536000 };

    fn default() -> Hsts {
        Hsts::Enable(Hsts::YEAR)
    }
}

impl Policy for Hsts {
    ghost use Rattle.std.specs.Prelude.{codes};
    ghost use Rattle.rkt_shield.specs.Hsts.{hsts_text};

    ghost NAME = { codes "Strict-Transport-Security" };

    ghost text = { hsts_text };

    fn name() -> &'static str {
        "Strict-Transport-Security"
    }

    fn header(&self, alloc: Global) -> Result<Header, NoMemory> {
        let value = self.value(alloc)?;
        Header::new(alloc, Hsts::name(), value.as_str())
    }
}
