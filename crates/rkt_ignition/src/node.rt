//! What sentries say of themselves.
ghost use Rattle.std.specs.Prelude.{◌≡◌, ◌++◌, OnOk, map};
ghost use Rattle.std.specs.List.{list_any};
ghost use Rattle.rkt_ignition.specs.Reached.{children, has_key, is_first, is_same_parent, is_such, node_of, opened};

use rkt_base::{NoMemory, Seq};
use rkt_http::Key;
use rkt_router::Sentry;

/// What a sentry says of itself, without what it asks.
#[derive(Clone, Copy, Debug, Drop)]
pub(crate) struct Node {
    pub key: Key,
    pub parent: Option<Key>,
    pub specialized: bool,
}

impl Node {
    /// What a sentry says.
    pub fn of<S>(sentry: &Sentry<S>) -> Node
        ensures { result ≡ node_of sentry.now }
    {
        Node {
            key: sentry.key,
            parent: sentry.parent,
            specialized: sentry.specialized,
        }
    }
}

/// Adds what each of these says.
pub(crate) fn add_nodes<S>(sentries: &[Sentry<S>], nodes: &mut Seq<Node>) -> Result<(), NoMemory>
    ensures { OnOk result (nodes.new ≡ nodes.old ++ map node_of sentries.now) }
{
    for sentry in sentries {
        nodes.push(Node::of(sentry))?;
    }
    Ok(())
}

// Whether both are there and the same, or none is there.
fn is_same_parent(one: Option<Key>, other: Option<Key>) -> bool
    ensures { result ≡ is_same_parent one other }
{
    match (one, other) {
        (None, None) => true,
        (Some(one), Some(other)) => one.0 == other.0,
        _ => false,
    }
}

/// Adds the positions of those that have this parent, or none.
pub(crate) fn add_children(
    nodes: &[Node],
    parent: Option<Key>,
    positions: &mut Seq<usize>,
) -> Result<(), NoMemory>
    ensures { OnOk result (positions.new ≡ positions.old ++ children nodes.now parent) }
{
    for at in 0..nodes.len() {
        if is_same_parent(nodes[at].parent, parent) {
            positions.push(at)?;
        }
    }
    Ok(())
}

/// Adds the positions of those whose parent is the key of the one at a position.
pub(crate) fn add_opened(
    nodes: &[Node],
    at: usize,
    positions: &mut Seq<usize>,
) -> Result<(), NoMemory>
    ensures { OnOk result (positions.new ≡ positions.old ++ opened nodes.now at) }
{
    match nodes.get(at) {
        Some(node) => add_children(nodes, Some(node.key), positions),
        None => Ok(()),
    }
}

// Whether it is specialised, or is not, as asked.
fn is_such(node: &Node, specialized: bool) -> bool
    ensures { result ≡ is_such specialized node.now }
{
    if specialized {
        node.specialized
    } else {
        !node.specialized
    }
}

// Whether the one at a position is such, and has a key.
fn has_key(nodes: &[Node], specialized: bool, key: Key, at: usize) -> bool
    ensures { result ≡ has_key nodes.now specialized key at }
{
    match nodes.get(at) {
        Some(node) => is_such(node, specialized) && node.key.0 == key.0,
        None => false,
    }
}

// Whether one of these is such, and has a key.
fn any_has_key(nodes: &[Node], specialized: bool, key: Key, positions: &[usize]) -> bool
    ensures { result ≡ list_any (has_key nodes.now specialized key) positions.now }
{
    positions
        .iter()
        .any(|at| has_key(nodes, specialized, key, *at))
}

/// Whether the one at a position is specialised, or is not, as asked, and none of those before it is so and has its key.
pub(crate) fn is_first(nodes: &[Node], specialized: bool, before: &[usize], at: usize) -> bool
    ensures { result ≡ is_first nodes.now specialized before.now at }
{
    match nodes.get(at) {
        Some(node) => {
            is_such(node, specialized) && !any_has_key(nodes, specialized, node.key, before)
        }
        None => false,
    }
}
