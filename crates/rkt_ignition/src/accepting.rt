//! What is refused of a rocket whose fairings passed.
ghost use Rattle.std.specs.Prelude.{◌≡◌, [], IfOk, OnOk, None};
ghost use Rattle.rkt_base.specs.Want.{IfRefused};
ghost use Rattle.rkt_config.specs.Config.{IsConfig, first_bad};
ghost use Rattle.rkt_ignition.specs.Aborted.{sentries_of};
ghost use Rattle.rkt_ignition.specs.Ignited.{IsAccepted, NoneCollide, RefusesParts, RefusesRouter, RefusesSentries, RefusesTable};
ghost use Rattle.rkt_ignition.specs.Reached.{IsQueried};

use crate::sentries::{aborted, queried};
use crate::{Aborts, IgniteError, Ignited, IgnitedPartsOf};
use rkt_base::Want;
use rkt_request::{Config, ConfigTable, Types};
use rkt_router::{Route, Router};
use std::alloc::Global;

/// The configuration that a table spells.
pub(crate) fn read_config(alloc: Global, table: &ConfigTable) -> Result<Config, Want<IgniteError>>
    ensures config { IfOk result (IsConfig table.now) }
    ensures accepted { OnOk result (first_bad table.now ≡ None) }
    ensures refused { IfRefused result (RefusesTable table.now) }
{
    match Config::from_table(alloc, table) {
        Ok(config) => Ok(config),
        Err(Want::Refused(bad)) => Err(Want::Refused(IgniteError::Config(bad))),
        Err(Want::NoMemory) => Err(Want::NoMemory),
    }
}

// Refuses routes or catchers that collide.
fn finalized<H, K, N>(alloc: Global, router: &Router<H, K, N>) -> Result<(), Want<IgniteError>>
    ensures ok { OnOk result (NoneCollide router.now) }
    ensures refused { IfRefused result (RefusesRouter router.now) }
{
    match router.finalize(alloc) {
        Ok(()) => Ok(()),
        Err(Want::Refused(found)) => Err(Want::Refused(IgniteError::Collisions(found))),
        Err(Want::NoMemory) => Err(Want::NoMemory),
    }
}

// Refuses where sentries abort.
fn unless_aborted<T: Types, H, N: Aborts<T>>(
    alloc: Global,
    routes: &[Route<H, N>],
    rocket: &Ignited<'_, T>,
) -> Result<(), Want<IgniteError>>
    ensures ok { OnOk result (IsQueried N.may (sentries_of routes.now) rocket.now []) }
    ensures refused { IfRefused result (RefusesSentries N.may (sentries_of routes.now) rocket.now) }
{
    let positions = queried(alloc, routes, rocket)?;
    if positions.is_empty() {
        return Ok(());
    }
    let aborted = aborted(alloc, routes, positions.as_slice())?;
    Err(Want::Refused(IgniteError::SentinelAborts(aborted)))
}

/// Refuses what collides, and then what sentries abort.
pub(crate) fn accept<T: Types, F, H, K, N: Aborts<T>>(
    alloc: Global,
    parts: &IgnitedPartsOf<F, H, K, N, T::Value>,
) -> Result<(), Want<IgniteError>>
    ensures ok { OnOk result (IsAccepted N.may parts.now) }
    ensures refused { IfRefused result (RefusesParts N.may parts.now) }
{
    finalized(alloc, &parts.router)?;
    let rocket = Ignited {
        config: &parts.config,
        managed: &parts.managed,
    };
    unless_aborted::<T, H, N>(alloc, parts.router.routes(), &rocket)
}
