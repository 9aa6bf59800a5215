//! Which sentries are reached, and which of these are asked.
ghost use Rattle.std.specs.Prelude.{◌≡◌, ◌≤◌, ◌++◌, [], IfOk, OnOk, drop, false, length, take};
ghost use Rattle.rkt_ignition.specs.Reached.{all_opened, asked, firsts, reached};

use crate::node::{Node, add_children, add_opened, is_first};
use rkt_base::{NoMemory, Seq};
use std::alloc::Global;

// Of the positions from a place on those that are first of their key, behind those before it.
fn firsts(
    alloc: Global,
    nodes: &[Node],
    specialized: bool,
    positions: &[usize],
    from: usize,
) -> Result<Seq<usize>, NoMemory>
    requires { from ≤ length positions.now }
    ensures { IfOk result (λ found. found ≡ firsts nodes.now specialized (take from positions.now) (drop from positions.now)) }
{
    let mut found = Seq::new(alloc);
    for place in from..positions.len() {
        let at = positions[place];
        if is_first(nodes, specialized, &positions[..place], at) {
            found.push(at)?;
        }
    }
    Ok(found)
}

// Adds what each of these opens.
fn add_all_opened(
    nodes: &[Node],
    opening: &[usize],
    positions: &mut Seq<usize>,
) -> Result<(), NoMemory>
    ensures { OnOk result (positions.new ≡ positions.old ++ all_opened nodes.now opening.now) }
{
    for at in opening {
        add_opened(nodes, *at, positions)?;
    }
    Ok(())
}

// Adds the layer behind the one that begins at a place.
fn add_layer(
    alloc: Global,
    nodes: &[Node],
    from: usize,
    positions: &mut Seq<usize>,
) -> Result<(), NoMemory>
    requires { from ≤ length positions.old }
    ensures { OnOk result (positions.new
        ≡ positions.old ++ all_opened nodes.now (firsts nodes.now false (take from positions.old) (drop from positions.old))) }
{
    let opening = firsts(alloc, nodes, false, positions.as_slice(), from)?;
    add_all_opened(nodes, opening.as_slice(), positions)
}

/// The positions of those that are reached, layer by layer.
pub(crate) fn reached(alloc: Global, nodes: &[Node]) -> Result<Seq<usize>, NoMemory>
    ensures { IfOk result (λ positions. positions ≡ reached nodes.now) }
{
    let mut positions = Seq::new(alloc);
    add_children(nodes, None, &mut positions)?;
    let mut from = 0;
    for _layer in 0..nodes.len() {
        let end = positions.len();
        add_layer(alloc, nodes, from, &mut positions)?;
        from = end;
    }
    Ok(positions)
}

/// Of those that are reached and specialised the first of each key.
pub(crate) fn asked(
    alloc: Global,
    nodes: &[Node],
    positions: &[usize],
) -> Result<Seq<usize>, NoMemory>
    requires { positions.now ≡ reached nodes.now }
    ensures { IfOk result (λ found. found ≡ asked nodes.now) }
{
    firsts(alloc, nodes, true, positions, 0)
}
