// Finding leaves in a panel that was judged good, `deep` its depth. These are no public calls: a caller judges first.
#![tactic(auto)]

ghost use Rattle.std.specs.Prelude.{◌≡◌, ◌≤◌, ◌<◌};
ghost use Rattle.tables.specs.inner.Says.{Says};
ghost use Rattle.tables.specs.Table.{Answers};
ghost use Rattle.answers.specs.Refusals.{answer_number, answer_ancestor, answer_leaf};
ghost use Rattle.cuts.specs.Cuts.{sibling};
ghost use Rattle.panel.specs.Panels.{deep_of, Good, InRange, LeafOf, leaf_count};
ghost use Rattle.panel.specs.Calls.{LeafNumbered, leaf_rows, Ancestor, NumberOf};
ghost use Rattle.leaves.specs.inner.Ways.{CutsTo, OnFirstWay, Ranged};

use answers::Refusal;
use cuts::is_cut;
use descents::{cuts_toward, leaf_below, leaf_over};
use nodes::{LeafNumber, Node};
use std::cmp::Ordering;

// Where a descent stops: at a leaf, and its number.
#[derive(Clone, Copy)]
pub struct Stop {
    pub node: Node,
    pub number: LeafNumber,
}

// The leaf count: word 1.
pub fn count(panel: &[u8], deep: usize) -> u32
    requires { Good panel.now × (deep ≡ deep_of panel.now) }
    ensures { result ≡ leaf_count panel.now }
{
    words::get_word(panel, deep, 1)
}

// The leaf of number i, which is below the count: that with i leaves left of it below node 1, whose word starts at bit D + 3.
pub fn leaf_at(panel: &[u8], deep: usize, i: LeafNumber) -> Node
    requires { Good panel.now × (deep ≡ deep_of panel.now) × (i.0 < leaf_count panel.now) }
    ensures { LeafNumbered panel.now i.0 result.0 }
{
    let n = count(panel, deep);
    Node(leaf_below(&panel, deep, deep + 3, Node(1), n, i))
}

// Whether k is a node of a panel, by its depth.
fn in_range(deep: usize, k: Node) -> bool
    requires { deep ≤ 17 }
    ensures { Says (Ranged deep k.0) result }
{
    2 <= k.0 && k.0 < 2u32 << deep
}

// The leaf on the way from node 1 to the first node of depth D below k, and its number: k itself where k is a leaf,
// the leaf above k where k lies below one.
pub fn leaf_toward(panel: &[u8], deep: usize, k: Node) -> Stop
    requires { Good panel.now × (deep ≡ deep_of panel.now) × InRange panel.now k.0 }
    ensures { OnFirstWay panel.now k.0 result.node.0 result.number.0 }
{
    let levels = deep - nodes::depth(k) as usize;
    let first = Node(k.0 << levels);
    let n = count(panel, deep);
    let mut i = LeafNumber(0);
    let node = leaf_over(&panel, deep, deep + 3, n, LeafNumber(0), first, &mut i);
    Stop {
        node: Node(node),
        number: i,
    }
}

// How many nodes are cut from node 1 down to k, k among them: as many as k's depth where k is a leaf, one more where k is cut, and else the depth
// of the leaf above k. A node of depth D is never cut.
fn cuts_to(panel: &[u8], deep: usize, k: Node) -> u32
    requires { Good panel.now × (deep ≡ deep_of panel.now) × InRange panel.now k.0 }
    ensures { CutsTo panel.now k.0 result }
{
    let levels = deep - nodes::depth(k) as usize;
    let last = if levels == 0 { 1 } else { levels };
    let half = 1usize << (deep - 1);
    cuts_toward(
        &panel,
        deep,
        last,
        (3usize << deep) + half,
        half,
        Node(k.0 << levels),
        0,
    )
}

// Whether k is a leaf.
pub fn is_leaf(panel: &[u8], deep: usize, k: Node) -> bool
    requires { Good panel.now × (deep ≡ deep_of panel.now) × InRange panel.now k.0 }
    ensures { Says (LeafOf panel.now k.0) result }
{
    cuts_to(panel, deep, k) == nodes::depth(k)
}

// Whether k is a leaf, where its sibling is one: the way down comes to both.
pub fn leaf_beside(panel: &[u8], deep: usize, k: Node) -> bool
    requires { Good panel.now × (deep ≡ deep_of panel.now) × InRange panel.now k.0 × LeafOf panel.now (sibling k.0) }
    ensures { Says (LeafOf panel.now k.0) result }
{
    !is_cut(panel, deep, k)
}

// Whether k is a leaf, as a call that takes one answers: 0, or refusal 3, 4 or 10.
pub fn tested(panel: &[u8], deep: usize, k: Node) -> Result<(), Refusal>
    requires { Good panel.now × (deep ≡ deep_of panel.now) }
    ensures answers { Answers (leaf_rows panel.now k.0) (answer_number result) }
    ensures ancestor { Ancestor panel.now k.0 (answer_number result) (answer_ancestor result) }
{
    if !in_range(deep, k) {
        return Err(Refusal::NoSuchNode);
    }
    let d = nodes::depth(k);
    let cuts = cuts_to(panel, deep, k);
    if d < cuts {
        return Err(Refusal::IsCut);
    }
    if cuts < d {
        return Err(Refusal::BelowLeaf(Node(k.0 >> (d - cuts))));
    }
    Ok(())
}

// The number of leaf k, or refusal 3, 4 or 10.
pub fn number_of(panel: &[u8], deep: usize, k: Node) -> Result<LeafNumber, Refusal>
    requires { Good panel.now × (deep ≡ deep_of panel.now) }
    ensures number_of { NumberOf panel.now k.0 (answer_number result) (answer_leaf result) }
    ensures ancestor { Ancestor panel.now k.0 (answer_number result) (answer_ancestor result) }
{
    if in_range(deep, k) {
        let stop = leaf_toward(panel, deep, k);
        return match k.0.cmp(&stop.node.0) {
            Ordering::Less => Err(Refusal::IsCut),
            Ordering::Equal => Ok(stop.number),
            Ordering::Greater => Err(Refusal::BelowLeaf(stop.node)),
        };
    }
    Err(Refusal::NoSuchNode)
}
