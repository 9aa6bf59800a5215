ghost use Rattle.std.specs.Prelude.{◌≡◌};
ghost use Rattle.rkt_shield.specs.XssFilter.{xss_filter_text};

use crate::policy::Policy;
use rkt_base::NoMemory;
use rkt_http::Header;
use std::alloc::Global;

/// The filter of old browsers against scripts that a request smuggles into a page.
#[derive(Debug, Drop)]
pub enum XssFilter {
    Enable,
    Disable,
    /// A page with such a script is not shown at all.
    EnableBlock,
}

impl XssFilter {
    fn value(&self) -> &'static str
        ensures { result.now ≡ xss_filter_text self.now }
    {
        match self {
            XssFilter::Enable => "1",
            XssFilter::Disable => "0",
            XssFilter::EnableBlock => "1; mode=block",
        }
    }
}

impl Default for XssFilter {
    ghost use Rattle.std.specs.Prelude.{◌≡◌};
    ghost use Rattle.rkt_shield.specs.declared.xss_filter.XssFilter.TheVariants.{Enable};

    ghost is_default = { λ policy. policy ≡ Enable };

    fn default() -> XssFilter {
        XssFilter::Enable
    }
}

impl Policy for XssFilter {
    ghost use Rattle.std.specs.Prelude.{codes};
    ghost use Rattle.rkt_shield.specs.XssFilter.{xss_filter_text};

    ghost NAME = { codes "X-XSS-Protection" };

    ghost text = { xss_filter_text };

    fn name() -> &'static str {
        "X-XSS-Protection"
    }

    fn header(&self, alloc: Global) -> Result<Header, NoMemory> {
        Header::new(alloc, XssFilter::name(), self.value())
    }
}
