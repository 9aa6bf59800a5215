//! At which events of a rocket's life a fairing is called.
ghost use Rattle.std.specs.Prelude.{◌≡◌, ◌||◌, IfOk, IsOk};
ghost use Rattle.std.specs.Fmt.{HasWritten, IsPlainFormatter};
ghost use Rattle.rkt_fairing.specs.Names.{next_name};

use std::fmt;
use std::ops::BitOr;

/// A set of events at which a fairing is called, and whether it is a singleton.
#[derive(Clone, Copy, Debug, PartialEq, Eq, Drop)]
pub struct Kind {
    pub ignite: bool,
    pub liftoff: bool,
    pub request: bool,
    pub response: bool,
    pub shutdown: bool,
    /// Of the fairings with its key only the last one that was attached is called.
    pub singleton: bool,
}

impl Kind {
    ghost use Rattle.std.specs.Prelude.{◌≡◌, ◌↔◌, IsTrue};
    ghost use Rattle.rkt_fairing.specs.Kind.{Has, union};

    // No event.
    const NONE: Kind = Kind {
        ignite: false,
        liftoff: false,
        request: false,
        response: false,
        shutdown: false,
        singleton: false,
    };

    /// Called at ignition.
    pub const Ignite: Kind = Kind {
        ignite: true,
        ..Kind::NONE
    };
    /// Called once the rocket is in orbit.
    pub const Liftoff: Kind = Kind {
        liftoff: true,
        ..Kind::NONE
    };
    /// Called for each request, before it is routed.
    pub const Request: Kind = Kind {
        request: true,
        ..Kind::NONE
    };
    /// Called for each response.
    pub const Response: Kind = Kind {
        response: true,
        ..Kind::NONE
    };
    /// Called once a shutdown has begun.
    pub const Shutdown: Kind = Kind {
        shutdown: true,
        ..Kind::NONE
    };
    /// Of the fairings with its key only the last one that was attached is called.
    pub const Singleton: Kind = Kind {
        singleton: true,
        ..Kind::NONE
    };

    /// Whether it has every kind of the other one.
    pub fn is(self, other: Kind) -> bool
        ensures { IsTrue result ↔ Has self other }
    {
        self | other == self
    }

    /// Whether it has the kinds of the other one, and no more.
    pub fn is_exactly(self, other: Kind) -> bool
        ensures { IsTrue result ↔ (self ≡ other) }
    {
        self == other
    }
}

impl BitOr for Kind {
    ghost use Rattle.std.specs.Prelude.{◌≡◌};
    ghost use Rattle.rkt_fairing.specs.Kind.{union};

    type Output = Kind;

    ghost bitor_gives = { λ a b both. both ≡ union a b };

    fn bitor(self, other: Kind) -> Kind {
        Kind {
            ignite: self.ignite || other.ignite,
            liftoff: self.liftoff || other.liftoff,
            request: self.request || other.request,
            response: self.response || other.response,
            shutdown: self.shutdown || other.shutdown,
            singleton: self.singleton || other.singleton,
        }
    }
}

/// Writes the name of a kind that is there, behind a comma where a name was written before it. Answers whether any is
/// written now.
fn write_name<W: fmt::Write>(
    f: &mut fmt::Formatter<W>,
    named: bool,
    has: bool,
    name: &str,
) -> Result<bool, fmt::Error>
    ensures named { IfOk result (λ now. now ≡ named || has) }
    ensures writes { IsPlainFormatter f.old
        → IsOk result
        → HasWritten W.write_str_gives f.old (next_name named has name.now) f.new }
{
    if !has {
        return Ok(named);
    }
    if named {
        f.write_str(", ")?;
    }
    f.write_str(name)?;
    Ok(true)
}

// The names of the kinds that it has.
impl fmt::Display for Kind {
    ghost use Rattle.std.specs.Prelude.{Some};
    ghost use Rattle.rkt_fairing.specs.Kind.{kind_text};

    ghost output = { λ kind. Some (kind_text kind) };

    fn fmt<W: fmt::Write>(&self, f: &mut fmt::Formatter<W>) -> fmt::Result {
        let named = write_name(f, false, self.ignite, "ignite")?;
        let named = write_name(f, named, self.liftoff, "liftoff")?;
        let named = write_name(f, named, self.request, "request")?;
        let named = write_name(f, named, self.response, "response")?;
        let named = write_name(f, named, self.shutdown, "shutdown")?;
        let _named = write_name(f, named, self.singleton, "singleton")?;
        Ok(())
    }
}
