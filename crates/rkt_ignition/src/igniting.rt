//! Ignition: its steps in order, each of which may refuse.
ghost use Rattle.std.specs.Prelude.{◌≡◌, [], List, None, IfOk, OnOk};
ghost use Rattle.rkt_base.specs.Want.{IfRefused};
ghost use Rattle.rkt_config.specs.Config.{IsConfig, first_bad};
ghost use Rattle.rkt_ignition.specs.Calls.{SeenCall};
ghost use Rattle.rkt_ignition.specs.Ignites.{IgnitesAll};
ghost use Rattle.rkt_ignition.specs.Rounds.{HavePassed, RefusesCalls, RefusesFairings, RefusesRounds};
ghost use Rattle.rkt_ignition.specs.Ignited.{IsAccepted, IsIgnited, IsMadeOf, IsRefused, RefusesLeft, RefusesTable};
ghost use Rattle.rkt_ignition.specs.Valid.{IsValid};

use crate::accepting::{accept, read_config};
use crate::rounds::{Rounds, call_all};
use crate::routed::routed;
use crate::{Aborts, IgniteCall, IgniteError, IgnitedPartsOf};
use rkt_base::{NoMemory, Seq, Want};
use rkt_fairing::{Attach, Building, Fairings, IgniteCallback, Info, Parts};
use rkt_request::{Config, Types};
use std::alloc::Global;
use std::mem::replace;

/// What is ignited of a rocket of these parts, for fairings of a type.
pub type IgnitedParts<A, F> = IgnitedPartsOf<
    F,
    <A as Parts>::Handler,
    <A as Parts>::Catch,
    <A as Parts>::Sentinel,
    <A as Types>::Value,
>;

// A copy of these.
fn copied(alloc: Global, infos: &[Info]) -> Result<Seq<Info>, NoMemory>
    ensures { IfOk result (λ copy. copy ≡ infos.now) }
{
    let mut copy = Seq::new(alloc);
    for info in infos {
        copy.push(*info)?;
    }
    Ok(copy)
}

// What is made of what the fairings left, with the configuration that was read of it.
fn joined<A: Parts, F: Drop>(
    alloc: Global,
    attached: Fairings<F>,
    building: Building<A, F>,
    config: Config,
) -> Result<IgnitedParts<A, F>, Want<IgniteError>>
    requires config { IsConfig building.table config }
    requires accepted { first_bad building.table ≡ None }
    ensures ok { IfOk result (IsMadeOf (record { attached = attached; building = building })) }
    ensures refused { IfRefused result (RefusesTable building.table) }
{
    let parts = building.into_parts();
    let Ok(router) = routed(alloc, parts.routes, parts.catchers) else {
        // By calls, in which that is proved once for their types.
        drop(attached);
        drop(config);
        drop(parts.fairings);
        drop(parts.managed);
        drop(parts.table);
        return Err(Want::NoMemory);
    };
    Ok(IgnitedPartsOf {
        router,
        fairings: attached,
        config,
        managed: parts.managed,
        table: parts.table,
    })
}

// What is made of what the fairings left.
fn made<A: Parts, F: Drop>(
    alloc: Global,
    attached: Fairings<F>,
    building: Building<A, F>,
) -> Result<IgnitedParts<A, F>, Want<IgniteError>>
    ensures ok { IfOk result (IsMadeOf (record { attached = attached; building = building })) }
    ensures refused { IfRefused result (RefusesTable building.table) }
{
    match read_config(alloc, &building.table) {
        Ok(config) => joined::<A, F>(alloc, attached, building, config),
        Err(refused) => {
            // By calls, in which that is proved once for their types.
            drop(attached);
            drop(building);
            Err(refused)
        }
    }
}

// The same, where it is accepted.
fn ready<A: Parts<Sentinel: Aborts<A>>, F: Drop>(
    alloc: Global,
    attached: Fairings<F>,
    building: Building<A, F>,
) -> Result<IgnitedParts<A, F>, Want<IgniteError>>
    ensures made { IfOk result (IsMadeOf (record { attached = attached; building = building })) }
    ensures accepted { IfOk result (IsAccepted A.Sentinel.may) }
    ensures refused { IfRefused result (RefusesLeft A.Sentinel.may (record { attached = attached; building = building })) }
{
    let parts = made::<A, F>(alloc, attached, building)?;
    match accept::<A, F, A::Handler, A::Catch, A::Sentinel>(alloc, &parts) {
        Ok(()) => Ok(parts),
        Err(refused) => {
            // By a call, in which that is proved once for its type.
            drop(parts);
            Err(refused)
        }
    }
}

// Refuses where a call was not done, or a singleton came too late.
fn audited<F>(
    alloc: Global,
    attached: &Fairings<F>,
    calls: Seq<IgniteCall>,
) -> Result<(), Want<IgniteError>>
    ensures ok { OnOk result (attached.now.failures ≡ []) }
    ensures refused { IfRefused result (RefusesFairings attached.now calls) }
{
    match attached.audit() {
        Ok(()) => Ok(()),
        Err(infos) => {
            let infos = copied(alloc, infos)?;
            Err(Want::Refused(IgniteError::FailedFairings { infos, calls }))
        }
    }
}

// Refuses by how the calls ended.
fn passed<F>(alloc: Global, attached: &Fairings<F>, rounds: Rounds) -> Result<(), Want<IgniteError>>
    ensures ok { OnOk result (HavePassed attached.now rounds) }
    ensures refused { IfRefused result (RefusesRounds attached.now rounds) }
{
    match rounds {
        Rounds::TooMany(calls) => Err(Want::Refused(IgniteError::IgniteLimit { calls })),
        Rounds::Over(calls) => audited(alloc, attached, calls),
    }
}

// What is attached and built once all were called that waited, and none has failed.
fn called<A, F, P>(
    alloc: Global,
    attached: &mut Fairings<F>,
    building: &mut Building<A, F>,
) -> Result<(), Want<IgniteError>>
where
    A: Parts,
    F: Attach + Drop,
    P: IgniteCallback<A, F>,
    ensures ok { OnOk result ((calls : List SeenCall)
        × IgnitesAll P.calling F.key F.info (record { attached = attached.old; building = building.old }) calls
        (record { attached = attached.new; building = building.new })) }
    ensures none_failed { OnOk result (attached.new.failures ≡ []) }
    ensures refused { IfRefused result
        (RefusesCalls P.calling F.key F.info (record { attached = attached.old; building = building.old })
        (record { attached = attached.new; building = building.new })) }
{
    let rounds = call_all::<A, F, P>(alloc, attached, building)?;
    passed(alloc, attached, rounds)
}

/// Ignites what was built of a rocket.
pub fn ignite<A, F, P>(
    alloc: Global,
    mut building: Building<A, F>,
) -> Result<IgnitedParts<A, F>, Want<IgniteError>>
where
    A: Parts<Sentinel: Aborts<A>>,
    F: Attach + Drop,
    P: IgniteCallback<A, F>,
    // It has what the builder has once the fairings passed, its configuration is read, none collide and no sentry aborts.
    ensures ignited { IfOk result (IsIgnited P.calling F.key F.info A.Sentinel.may building) }
    // Each refusal has its cause, and comes only where those before it did not.
    ensures refused { IfRefused result (IsRefused P.calling F.key F.info A.Sentinel.may building) }
    // Where none of its ignitions can be refused, it ignites, as long as there is memory.
    ensures complete { IsValid P.calling F.key F.info A.Sentinel.may building → IfRefused result (λ _. ⊥) }
{
    let mut attached = replace(&mut building.fairings, Fairings::new(alloc));
    match called::<A, F, P>(alloc, &mut attached, &mut building) {
        Ok(()) => ready::<A, F>(alloc, attached, building),
        Err(refused) => {
            // By calls, in which that is proved once for their types.
            drop(attached);
            drop(building);
            Err(refused)
        }
    }
}
