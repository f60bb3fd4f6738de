// Going down from node 1 of a good panel to a leaf or a node. Each step is the last thing that a call does, the panel behind one reference: the
// compiler makes a loop of it, which needs no stack. What comes back is a plain number: a struct comes back through memory, level by level,
// and no loop can be made of that.
#![tactic(auto)]

ghost use Rattle.std.specs.Prelude.{◌≡◌, ◌+◌, ◌-◌, ◌/◌, ◌^◌, ◌≤◌, ◌<◌};
ghost use Rattle.panel.specs.Panels.{Good, number_in};
ghost use Rattle.panel.specs.Calls.{LeafNumbered};
ghost use Rattle.descents.specs.inner.Descents.{NamedAt, OnWay, Passed, Spot};

use nodes::{LeafNumber, Node};
use std::hint::select_unpredictable;

// The leaf that has i leaves left of it below `node`, whose word starts at bit `start`; `left` levels are left to the last.
// Only the left child's word is read: where it starts follows from the node's, and the right child's word is the rest. Each number of the
// child is selected from two: no jump to guess is left.
pub fn leaf_below(
    panel: &&[u8],
    left: usize,
    start: usize,
    node: Node,
    word: u32,
    i: LeafNumber,
) -> u32
    requires { Good panel.now.now × Spot panel.now.now left start node.0 word × (i.0 < word) }
    ensures { LeafNumbered panel.now.now (number_in panel.now.now node.0 + i.0) result }
{
    let k = node.0;
    if word < 2 {
        return k;
    }
    let first = 2 * (start - k as usize);
    let l = fields::get_field(*panel, first, left);
    let in_left = i.0 < l;
    let at = select_unpredictable(in_left, first, first + left);
    let child = select_unpredictable(in_left, 2 * k, 2 * k + 1);
    let leaves = select_unpredictable(in_left, l, word - l);
    let past = select_unpredictable(in_left, 0, l);
    leaf_below(
        panel,
        left - 1,
        at,
        Node(child),
        leaves,
        LeafNumber(i.0 - past),
    )
}

// The leaf on the way to n, a node of depth D, and into `number` its number. The way has come to the node `left` levels above n,
// whose own word starts at bit `start`, with `before` leaves left of it. It reads as `leaf_below` does.
pub fn leaf_over(
    panel: &&[u8],
    left: usize,
    start: usize,
    own: u32,
    before: LeafNumber,
    n: Node,
    number: &mut LeafNumber,
) -> u32
    requires { Good panel.now.now × Spot panel.now.now left start (n.0 / 2 ^ left) own × (before.0 ≡ number_in panel.now.now (n.0 / 2 ^ left)) }
    ensures { OnWay panel.now.now n.0 result number.new.0 }
{
    let k = n.0;
    if own < 2 {
        *number = before;
        return k >> left;
    }
    let first = 2 * (start - (k >> left) as usize);
    let l = fields::get_field(*panel, first, left);
    let to_left = (k >> (left - 1)) % 2 == 0;
    let at = select_unpredictable(to_left, first, first + left);
    let leaves = select_unpredictable(to_left, l, own - l);
    let past = select_unpredictable(to_left, 0, l);
    leaf_over(
        panel,
        left - 1,
        at,
        leaves,
        LeafNumber(before.0 + past),
        n,
        number,
    )
}

// How many nodes are cut on the way to n, a node of depth D, as far as that `last` levels above it. The way has come to the node `left` levels
// above n, with `before` cut nodes behind it; bit `at` of the panel is the leaf bit that names its cut, and `half` places lie below each of its
// children. The digit of n that `half` stands for says to which child the way goes on, whose bit lies half as many places further on or back.
pub fn cuts_toward(
    panel: &&[u8],
    left: usize,
    last: usize,
    at: usize,
    half: usize,
    n: Node,
    before: u32,
) -> u32
    requires { Good panel.now.now × (1 ≤ last) × (last ≤ left) × Passed panel.now.now left n.0 before × NamedAt panel.now.now left at half (n.0 / 2 ^ left) }
    ensures { Passed panel.now.now (last - 1) n.0 result }
{
    let cut = before + bits::get_bit(*panel, at) as u32;
    if left == last {
        return cut;
    }
    let quarter = half / 2;
    cuts_toward(
        panel,
        left - 1,
        last,
        at + (n.0 as usize & half) - quarter,
        quarter,
        n,
        cut,
    )
}
