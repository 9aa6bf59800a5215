ghost use Rattle.rkt_http.specs.OutcomeLaws.{MapsNothing, MapsInTurn, GoesOnFromSuccess, GoesOnWithSuccess, GoesOnInTurn};

/// The laws of what `Outcome::map` and `Outcome::and_then` promise: the first keeps identity and composition, and the
/// second is associative and has a Success as its unit.
pub fn outcome_laws<S, T, U, E, F>()
    ensures map_identity { MapsNothing S E F }
    ensures map_composition { MapsInTurn S T U E F }
    ensures left_unit { GoesOnFromSuccess S T E F }
    ensures right_unit { GoesOnWithSuccess S E F }
    ensures associative { GoesOnInTurn S T U E F }
{}
