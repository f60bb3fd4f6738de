// Splitting and merging in a panel that was judged good, `deep` its depth. These are no public calls: a caller judges first.
#![tactic(auto)]

ghost use Rattle.std.specs.Prelude.{◌≡◌, ◌<◌};
ghost use Rattle.nodes.specs.Depth.{depth_of};
ghost use Rattle.answers.specs.Refusals.{answer_number, answer_ancestor};
ghost use Rattle.tables.specs.inner.Says.{Says};
ghost use Rattle.panel.specs.Panels.{deep_of, Good, LeafOf};
ghost use Rattle.panel.specs.Calls.{Ancestor, Split, Together, Merge};

use answers::Refusal;
use cutting::{merge_leaves, split_leaf};
use leaves::{is_leaf, leaf_beside, tested};
use nodes::Node;
use pinning::unpinned;

// Splits leaf k: 0, or refusal 3, 4, 10 or 5 and no byte written.
pub fn split(panel: &mut [u8], deep: usize, k: Node) -> Result<(), Refusal>
    requires { Good panel.old × (deep ≡ deep_of panel.old) }
    ensures split { Split panel.old k.0 (answer_number result) panel.new }
    ensures ancestor { Ancestor panel.old k.0 (answer_number result) (answer_ancestor result) }
{
    tested(panel, deep, k)?;
    if nodes::depth(k) as usize >= deep {
        return Err(Refusal::AtGreatestDepth);
    }
    split_leaf(panel, deep, k);
    Ok(())
}

// Whether the leaves are there that a merge of leaf k needs: its sibling and, where the parent's edge neighbour is a node,
// both that one's children. At the border there is no pair across to test.
fn together(panel: &[u8], deep: usize, k: Node) -> bool
    requires { Good panel.now × (deep ≡ deep_of panel.now) × LeafOf panel.now k.0 × (1 < depth_of k.0) }
    ensures { Says (Together panel.now k.0) result }
{
    let q = k.0 / 2;
    if !leaf_beside(panel, deep, Node(4 * q + 1 - k.0)) {
        return false;
    }
    let e = nodes::edge_of(Node(q));
    e == 0 || is_leaf(panel, deep, Node(2 * e)) && leaf_beside(panel, deep, Node(2 * e + 1))
}

// Merges leaf k: 0, or refusal 3, 4, 10, 6, 7 or 11 and no byte written.
pub fn merge(panel: &mut [u8], deep: usize, k: Node) -> Result<(), Refusal>
    requires { Good panel.old × (deep ≡ deep_of panel.old) }
    ensures merge { Merge panel.old k.0 (answer_number result) panel.new }
    ensures ancestor { Ancestor panel.old k.0 (answer_number result) (answer_ancestor result) }
{
    tested(panel, deep, k)?;
    if nodes::depth(k) <= 1 {
        return Err(Refusal::AtDepthOne);
    }
    if !together(panel, deep, k) {
        return Err(Refusal::LeavesMissing);
    }
    if !unpinned(panel, deep, k) {
        return Err(Refusal::LeafPinned);
    }
    merge_leaves(panel, deep, k);
    Ok(())
}
