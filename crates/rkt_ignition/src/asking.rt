//! What sentries answer before a rocket may be launched.
ghost use Rattle.std.specs.Prelude.{◌≡◌, ◌≢◌, [], IfOk, IfSome, OnOk, filter};
ghost use Rattle.rkt_base.specs.Want.{IfRefused};
ghost use Rattle.rkt_ignition.specs.Reached.{Answer, IsQueried, aborts, has_aborted};

use crate::node::{Node, add_nodes};
use crate::reach::{asked, reached};
use crate::{Aborts, Ignited};
use rkt_base::{NoMemory, Seq, Want};
use rkt_http::Key;
use rkt_request::Types;
use rkt_router::Sentry;
use std::alloc::Global;

// What each of these answers, under its key.
fn ask_all<T: Types, S: Aborts<T>>(
    alloc: Global,
    sentries: &[Sentry<S>],
    asked: &[usize],
    rocket: &Ignited<'_, T>,
) -> Result<Seq<(Key, bool)>, NoMemory>
    ensures { IfOk result (λ answers. Answer S.may sentries.now rocket.now asked.now answers) }
{
    let mut answers = Seq::new(alloc);
    for at in asked {
        answers.push(ask(sentries.get(*at), rocket))?;
    }
    Ok(answers)
}

// What it answers, under its key.
pub(crate) fn ask<T: Types, S: Aborts<T>>(
    sentry: Option<&Sentry<S>>,
    rocket: &Ignited<'_, T>,
) -> (Key, bool)
    ensures { IfSome sentry.entry (λ sentry. (result.0 ≡ sentry.now.key) × S.may sentry.now.abort rocket.now result.1) }
{
    match sentry {
        Some(sentry) => (sentry.key, sentry.abort.abort(rocket)),
        None => (Key(0), false),
    }
}

// Whether one has answered under this key that the launch is to be aborted.
fn has_aborted(answers: &[(Key, bool)], key: Key) -> bool
    ensures { result ≡ has_aborted answers.now key }
{
    answers.iter().any(|one| one.0.0 == key.0 && one.1)
}

// Whether the one at a position is specialised, and one of its key has answered that the launch is to be aborted.
fn aborts(nodes: &[Node], answers: &[(Key, bool)], at: usize) -> bool
    ensures { result ≡ aborts nodes.now answers.now at }
{
    match nodes.get(at) {
        Some(node) => node.specialized && has_aborted(answers, node.key),
        None => false,
    }
}

/// Those of these that abort.
pub(crate) fn aborting(
    alloc: Global,
    nodes: &[Node],
    answers: &[(Key, bool)],
    reached: &[usize],
) -> Result<Seq<usize>, NoMemory>
    ensures { IfOk result (λ positions. positions ≡ filter (aborts nodes.now answers.now) reached.now) }
{
    let mut positions = Seq::new(alloc);
    for at in reached {
        if aborts(nodes, answers, *at) {
            positions.push(*at)?;
        }
    }
    Ok(positions)
}

// The positions of those that abort.
fn queried<T: Types, S: Aborts<T>>(
    alloc: Global,
    sentries: &[Sentry<S>],
    rocket: &Ignited<'_, T>,
) -> Result<Seq<usize>, NoMemory>
    ensures { IfOk result (IsQueried S.may sentries.now rocket.now) }
{
    let mut nodes = Seq::new(alloc);
    add_nodes(sentries, &mut nodes)?;
    let reached = reached(alloc, nodes.as_slice())?;
    let asked = asked(alloc, nodes.as_slice(), reached.as_slice())?;
    let answers = ask_all(alloc, sentries, asked.as_slice(), rocket)?;
    aborting(
        alloc,
        nodes.as_slice(),
        answers.as_slice(),
        reached.as_slice(),
    )
}

/// Asks the sentries that are reached, and refuses with the positions of those that abort, in the order in which they are
/// reached.
pub fn query<T: Types, S: Aborts<T>>(
    alloc: Global,
    sentries: &[Sentry<S>],
    rocket: &Ignited<'_, T>,
) -> Result<(), Want<Seq<usize>>>
    ensures ok { OnOk result (IsQueried S.may sentries.now rocket.now []) }
    ensures some { IfRefused result (λ positions. positions ≢ []) }
    ensures refused { IfRefused result (λ positions. IsQueried S.may sentries.now rocket.now positions) }
{
    let positions = queried(alloc, sentries, rocket)?;
    if positions.is_empty() {
        return Ok(());
    }
    Err(Want::Refused(positions))
}
