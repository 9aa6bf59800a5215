ghost use Rattle.rkt_config.specs.Limits.{HasOneLimit};

/// A law of limits: a name has one answer, so that `Limits::find` answers for layers what `Limits::get` does for their join.
pub fn has_one_limit()
    ensures { HasOneLimit }
{}
