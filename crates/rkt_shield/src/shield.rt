ghost use Rattle.std.specs.Prelude.{◌≡◌, [], IfOk, OnOk, OnErr};
ghost use Rattle.rkt_shield.specs.Shield.{IsByName, enabled, disabled, is_enabled, default_headers, applied};

use crate::by_name::{add_absent, contains, put, remove};
use crate::frame::Frame;
use crate::no_sniff::NoSniff;
use crate::permission::Permission;
use crate::policy::Policy;
use rkt_base::NoMemory;
use rkt_http::{Header, HeaderMap};
use std::alloc::Global;
use std::marker::Model;

/// The headers of the policies that are enabled, in the order of their names in lower case.
#[derive(Debug, Drop)]
pub struct Shield {
    alloc: Global,
    headers: Vec<Header>,
}

impl Model for Shield {
    ghost use Rattle.std.specs.Prelude.{List};
    ghost use Rattle.rkt_http.specs.Headers.{Field};
    ghost use Rattle.rkt_shield.specs.Shield.{IsByName};

    ghost Value = { List Field };

    ghost view = { λ s. s.headers.items };

    ghost invariant = { λ s. IsByName s.headers.items };
}

impl Shield {
    /// No policy is enabled.
    pub fn new(alloc: Global) -> Shield
        ensures { result ≡ [] }
    {
        Shield {
            alloc,
            headers: Vec::new(alloc),
        }
    }

    /// The policies `NoSniff`, `Frame` and `Permission`, each as it is by default.
    pub fn default(alloc: Global) -> Result<Shield, NoMemory>
        ensures { IfOk result (λ shield. shield ≡ default_headers) }
    {
        let permission = Permission::default(alloc)?;
        Shield::new(alloc)
            .enable(&NoSniff::Enable)?
            .enable(&Frame::SameOrigin)?
            .enable(&permission)
    }

    /// Takes the header of a policy, in place of one of the same name.
    pub fn enable<P: Policy>(mut self, policy: &P) -> Result<Shield, NoMemory>
        ensures { IfOk result (λ shield. shield ≡ enabled self (record { name = P.NAME; value = P.text policy.now })) }
    {
        let header = policy.header(self.alloc)?;
        put(&mut self.headers, header)?;
        Ok(self)
    }

    /// Takes the header of the policy's name away.
    pub fn disable<P: Policy>(mut self) -> Shield
        ensures { result ≡ disabled self P.NAME }
    {
        remove(&mut self.headers, P::name());
        self
    }

    /// Whether a policy of this name is enabled.
    pub fn is_enabled<P: Policy>(&self) -> bool
        ensures { result ≡ is_enabled self.now P.NAME }
    {
        contains(self.headers.as_slice(), P::name())
    }

    /// What is added to a response, unless it has such headers of its own.
    pub fn headers(&self) -> &[Header]
        ensures headers { result.now ≡ self.now }
        ensures by_name { IsByName result.now }
    {
        self.headers.as_slice()
    }

    /// Adds each header whose name is not there to a header map, which is as it was where memory is short.
    pub fn apply(&self, headers: &mut HeaderMap) -> Result<(), NoMemory>
        ensures ok { OnOk result (headers.new ≡ applied headers.old self.now) }
        ensures err { OnErr result (headers.new ≡ headers.old) }
    {
        add_absent(self.alloc, self.headers.as_slice(), headers)
    }
}
