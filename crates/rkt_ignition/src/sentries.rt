//! The sentries of all routes, and what they answer.
ghost use Rattle.std.specs.Prelude.{◌≡◌, ◌++◌, IfOk, OnOk, map, slice_get};
ghost use Rattle.std.specs.Option.{option_copied};
ghost use Rattle.rkt_ignition.specs.Aborted.{aborted_at, sentries_of, told_at, told_by};
ghost use Rattle.rkt_ignition.specs.Reached.{Answer, IsQueried, node_of};

use crate::asking::{aborting, ask};
use crate::node::{Node, add_nodes};
use crate::reach::{asked, reached};
use crate::{Aborted, Aborts, Ignited};
use rkt_base::{NoMemory, Seq};
use rkt_http::Key;
use rkt_request::Types;
use rkt_router::{Route, Sentry};
use std::alloc::Global;

// What the sentries of all routes say, in mounting order.
fn nodes_of<H, N>(alloc: Global, routes: &[Route<H, N>]) -> Result<Seq<Node>, NoMemory>
    ensures { IfOk result (λ nodes. nodes ≡ map node_of (sentries_of routes.now)) }
{
    let mut nodes = Seq::new(alloc);
    for route in routes {
        add_nodes(route.sentinels.as_slice(), &mut nodes)?;
    }
    Ok(nodes)
}

// The sentry at a position of those of all routes.
fn sentry_at<H, N>(routes: &[Route<H, N>], position: usize) -> Option<&Sentry<N>>
    ensures { option_copied result ≡ slice_get (sentries_of routes.now) position }
{
    let mut left = position;
    for route in routes {
        let sentries = route.sentinels.as_slice();
        if left < sentries.len() {
            return sentries.get(left);
        }
        left -= sentries.len();
    }
    None
}

// What each of these answers, under its key.
fn ask_all<T: Types, H, N: Aborts<T>>(
    alloc: Global,
    routes: &[Route<H, N>],
    asked: &[usize],
    rocket: &Ignited<'_, T>,
) -> Result<Seq<(Key, bool)>, NoMemory>
    ensures { IfOk result (λ answers. Answer N.may (sentries_of routes.now) rocket.now asked.now answers) }
{
    let mut answers = Seq::new(alloc);
    for at in asked {
        answers.push(ask(sentry_at(routes, *at), rocket))?;
    }
    Ok(answers)
}

// What a sentry tells.
fn told<N>(sentry: &Sentry<N>) -> Aborted
    ensures { result ≡ told_by sentry.now }
{
    Aborted {
        type_name: sentry.type_name,
        location: sentry.location,
    }
}

// Adds what the one at a position tells.
fn add_told<H, N>(
    routes: &[Route<H, N>],
    position: usize,
    aborted: &mut Seq<Aborted>,
) -> Result<(), NoMemory>
    ensures { OnOk result (aborted.new ≡ aborted.old ++ told_at (sentries_of routes.now) position) }
{
    match sentry_at(routes, position) {
        Some(sentry) => aborted.push(told(sentry)),
        None => Ok(()),
    }
}

/// What those at these positions tell.
pub(crate) fn aborted<H, N>(
    alloc: Global,
    routes: &[Route<H, N>],
    positions: &[usize],
) -> Result<Seq<Aborted>, NoMemory>
    ensures { IfOk result (λ aborted. aborted ≡ aborted_at (sentries_of routes.now) positions.now) }
{
    let mut aborted = Seq::new(alloc);
    for at in positions {
        add_told(routes, *at, &mut aborted)?;
    }
    Ok(aborted)
}

/// The positions of those that abort, in the order in which they are reached.
pub(crate) fn queried<T: Types, H, N: Aborts<T>>(
    alloc: Global,
    routes: &[Route<H, N>],
    rocket: &Ignited<'_, T>,
) -> Result<Seq<usize>, NoMemory>
    ensures { IfOk result (IsQueried N.may (sentries_of routes.now) rocket.now) }
{
    let nodes = nodes_of(alloc, routes)?;
    let reached = reached(alloc, nodes.as_slice())?;
    let asked = asked(alloc, nodes.as_slice(), reached.as_slice())?;
    let answers = ask_all(alloc, routes, asked.as_slice(), rocket)?;
    aborting(
        alloc,
        nodes.as_slice(),
        answers.as_slice(),
        reached.as_slice(),
    )
}
