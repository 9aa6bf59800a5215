ghost use Rattle.std.specs.Prelude.{◌≡◌, IfOk, string_bytes};
ghost use Rattle.rkt_shield.specs.ExpectCt.{expect_ct_text, with_report};
ghost use Rattle.rkt_shield.specs.Age.{max_age};

use crate::age::aged;
use crate::policy::Policy;
use rkt_base::NoMemory;
use rkt_http::{Absolute, Header};
use std::alloc::Global;

/// For how many seconds a browser expects that the site's certificate stands in public logs.
#[derive(Debug, Drop)]
pub enum ExpectCt {
    /// Other certificates are refused.
    Enforce(u64),
    /// Other certificates are reported there.
    Report(u64, Absolute),
    ReportAndEnforce(u64, Absolute),
}

/// An age, what stands behind it, and where to report.
fn aged_report(alloc: Global, age: u64, rest: &str, uri: &str) -> Result<String, NoMemory>
    ensures { IfOk result (λ text. string_bytes text ≡ max_age age (with_report rest.now uri.now)) }
{
    format!(in alloc; "max-age={age}{rest}, report-uri=\"{uri}\"")
}

impl ExpectCt {
    fn value(&self, alloc: Global) -> Result<String, NoMemory>
        ensures { IfOk result (λ value. string_bytes value ≡ expect_ct_text self.now) }
    {
        match self {
            ExpectCt::Enforce(age) => aged(alloc, *age, ", enforce"),
            ExpectCt::Report(age, uri) => aged_report(alloc, *age, "", uri.as_str()),
            ExpectCt::ReportAndEnforce(age, uri) => {
                aged_report(alloc, *age, ", enforce", uri.as_str())
            }
        }
    }
}

impl Default for ExpectCt {
    ghost use Rattle.std.specs.Prelude.{◌≡◌};
    ghost use Rattle.rkt_shield.specs.declared.expect_ct.ExpectCt.TheVariants.{Enforce};

    ghost is_default = { λ policy. policy ≡ Enforce 2592000 };

    /// 30 days.
    fn default() -> ExpectCt {
        ExpectCt::Enforce(2_592_000)
    }
}

impl Policy for ExpectCt {
    ghost use Rattle.std.specs.Prelude.{codes};
    ghost use Rattle.rkt_shield.specs.ExpectCt.{expect_ct_text};

    ghost NAME = { codes "Expect-CT" };

    ghost text = { expect_ct_text };

    fn name() -> &'static str {
        "Expect-CT"
    }

    fn header(&self, alloc: Global) -> Result<Header, NoMemory> {
        let value = self.value(alloc)?;
        Header::new(alloc, ExpectCt::name(), value.as_str())
    }
}
