// The pins of a panel that was judged good, `deep` its depth. These are no public calls: a caller judges first.
#![tactic(auto)]

ghost use Rattle.std.specs.Prelude.{◌≡◌, ◌+◌, ◌*◌, ◌<◌};
ghost use Rattle.nodes.specs.Depth.{depth_of};
ghost use Rattle.answers.specs.Refusals.{answer_number, answer_ancestor, answer_pin};
ghost use Rattle.tables.specs.inner.Says.{Says};
ghost use Rattle.panel.specs.Panels.{deep_of, Good, InRange, Pinned};
ghost use Rattle.panel.specs.Calls.{Ancestor, PinOf, Bare, Unpinned, PinPut};

use answers::Refusal;
use leaves::tested;
use nodes::Node;

// Whether the pin bit in the place of k's own leaf bit is set.
fn is_pinned(panel: &[u8], deep: usize, k: Node) -> bool
    requires { Good panel.now × (deep ≡ deep_of panel.now) × InRange panel.now k.0 }
    ensures { Says (Pinned panel.now k.0) result }
{
    pins::pin(panel, deep, pins::leaf_place(deep, k)) == 1
}

// Whether neither child of n is pinned.
fn bare(panel: &[u8], deep: usize, n: Node) -> bool
    requires { Good panel.now × (deep ≡ deep_of panel.now) × InRange panel.now (2 * n.0) × InRange panel.now (2 * n.0 + 1) }
    ensures { Says (Bare panel.now n.0) result }
{
    !is_pinned(panel, deep, Node(2 * n.0)) && !is_pinned(panel, deep, Node(2 * n.0 + 1))
}

// Whether none of the leaves is pinned that a merge of leaf k would remove: the parent's children and, where its edge neighbour is a
// node, that one's.
pub fn unpinned(panel: &[u8], deep: usize, k: Node) -> bool
    requires { Good panel.now × (deep ≡ deep_of panel.now) × InRange panel.now k.0 × (1 < depth_of k.0) }
    ensures { Says (Unpinned panel.now k.0) result }
{
    let q = Node(k.0 / 2);
    if !bare(panel, deep, q) {
        return false;
    }
    let e = nodes::edge_of(q);
    e == 0 || bare(panel, deep, Node(e))
}

// Whether leaf k is pinned, or refusal 3, 4 or 10.
pub fn pinned(panel: &[u8], deep: usize, k: Node) -> Result<bool, Refusal>
    requires { Good panel.now × (deep ≡ deep_of panel.now) }
    ensures pin_of { PinOf panel.now k.0 (answer_number result) (answer_pin result) }
    ensures ancestor { Ancestor panel.now k.0 (answer_number result) (answer_ancestor result) }
{
    tested(panel, deep, k)?;
    Ok(is_pinned(panel, deep, k))
}

// Sets leaf k's pin to v, 0 or 1, also where it is so: 0, or refusal 3, 4 or 10 and no byte written.
pub fn put_pin(panel: &mut [u8], deep: usize, k: Node, v: u8) -> Result<(), Refusal>
    requires { Good panel.old × (deep ≡ deep_of panel.old) × (v < 2) }
    ensures pin_put { PinPut panel.old k.0 v (answer_number result) panel.new }
    ensures ancestor { Ancestor panel.old k.0 (answer_number result) (answer_ancestor result) }
{
    tested(panel, deep, k)?;
    pins::put_pin(panel, deep, pins::leaf_place(deep, k), v);
    Ok(())
}
