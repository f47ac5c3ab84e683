//! A tournament of frames by their stamps: who comes first is known at once, and a change of one of them
//! plays as many games again as the tree has levels.

ghost use Rattle.std.specs.Prelude.{◌≡◌, ◌≢◌, ℕ, ◌+◌, ◌*◌, ◌^◌, ◌<◌, ◌≤◌, length, replicate, slice_set};
ghost use Rattle.std.specs.Prelude.{Some, None, IfOk};
ghost use Rattle.pm_policies.specs.Tournaments.{node_at, leaf_at, winner, is_before as is_before_of};
ghost use Rattle.pm_policies.specs.Tournaments.{IsTournament};

use pm_types::FrameNo;
use std::alloc::{AllocError, Global};

/// A frame with the stamp by which it is compared.
#[derive(Clone, Copy)]
pub(crate) struct Contender {
    pub(crate) stamp: u64,
    pub(crate) frame: FrameNo,
}

pub(crate) type Node = Option<Contender>;

/// A tournament with so many leaves, where none takes part.
pub(crate) fn without_contenders(alloc: Global, leaves: u32) -> Result<Vec<Node>, AllocError>
    ensures { IfOk result (λ v. v.items ≡ replicate (2 * leaves) None) }
{
    let mut nodes = Vec::new(alloc);
    nodes.resize(2 * leaves as usize, None)?;
    Ok(nodes)
}

/// A tournament in which all frames take part, with stamp 0.
pub(crate) fn of_all(alloc: Global, leaves: u32) -> Result<Vec<Node>, AllocError>
    ensures games { IfOk result (λ v. IsTournament leaves v.items) }
    ensures all { IfOk result
        (λ v. (i : ℕ) → i < leaves → leaf_at leaves v.items i ≡ Some (record { stamp = 0; frame = i })) }
{
    let mut nodes = without_contenders(alloc, leaves)?;
    enter_all(&mut nodes, leaves);
    Ok(nodes)
}

// Sets all leaves, where none takes part yet.
fn enter_all(nodes: &mut [Node], leaves: u32)
    requires { nodes.old ≡ replicate (2 * leaves) None }
    ensures games { IsTournament leaves nodes.new }
    ensures all { (i : ℕ) → i < leaves → leaf_at leaves nodes.new i ≡ Some (record { stamp = 0; frame = i }) }
{
    'enters: for frame in 0..leaves {
        let contender = Contender { stamp: 0, frame };
        enter(nodes, leaves as usize, frame as usize, Some(contender));
    }
}

/// Sets a leaf, and plays its games again.
pub(crate) fn enter(nodes: &mut [Node], leaves: usize, leaf: usize, node: Node)
    requires games { IsTournament leaves nodes.old }
    requires leaf { leaf < leaves }
    requires few { leaves < 2 ^ 32 }
    ensures games { IsTournament leaves nodes.new }
    ensures entered { leaf_at leaves nodes.new leaf ≡ node }
    ensures others { (i : ℕ) → i < leaves → i ≢ leaf → leaf_at leaves nodes.new i ≡ leaf_at leaves nodes.old i }
{
    nodes[leaves + leaf] = node;
    let mut at = (leaves + leaf) / 2;
    'games: while at > 0 {
        play(nodes, at);
        at /= 2;
    }
}

/// Who comes first of all.
pub(crate) fn first(nodes: &[Node]) -> Node
    requires { 1 < length nodes.now }
    ensures { result ≡ node_at nodes.now 1 }
{
    nodes[1]
}

// An inner node becomes the winner of the two below it.
fn play(nodes: &mut [Node], at: usize)
    requires { 2 * at + 1 < length nodes.old }
    ensures { nodes.new ≡ slice_set nodes.old at
        (winner (node_at nodes.old (2 * at)) (node_at nodes.old (2 * at + 1))) }
{
    nodes[at] = winner_of(nodes[2 * at], nodes[2 * at + 1]);
}

// The one of the two that comes first.
fn winner_of(a: Node, b: Node) -> Node
    ensures { result ≡ winner a b }
{
    match (a, b) {
        (None, other) => other,
        (Some(first), None) => Some(first),
        (Some(first), Some(second)) => { if is_before(second, first) { b } else { a } }
    }
}

// The first has a lesser stamp, or the same and a lesser number.
fn is_before(a: Contender, b: Contender) -> bool
    ensures { result ≡ is_before_of a b }
{
    a.stamp < b.stamp || (a.stamp == b.stamp && a.frame < b.frame)
}
