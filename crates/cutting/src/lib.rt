// Changing the cuts of a panel that was judged good, `deep` its depth. Between two cuts the sums are right.
#![tactic(auto)]

ghost use Rattle.std.specs.Prelude.{◌≡◌, ◌≤◌, ◌<◌};
ghost use Rattle.nodes.specs.Depth.{depth_of};
ghost use Rattle.words.specs.inner.Working.{Room};
ghost use Rattle.sums.specs.Sums.{SumsRight};
ghost use Rattle.panel.specs.Panels.{deep_of, Good, LeafOf};
ghost use Rattle.panel.specs.Calls.{SplitAt, Together, Unpinned, MergeAt};
ghost use Rattle.cutting.specs.inner.Changing.{CutPut, Cuttable, CutUnder};

use cuts::{cut_place, is_cut_above, place_above};
use nodes::Node;

// Sets or clears the leaf bit that names n, with the sums above it.
fn put_cut(panel: &mut [u8], deep: usize, n: Node, v: u8)
    requires { Room deep panel.old × SumsRight deep panel.old × (1 ≤ n.0) × (depth_of n.0 < deep) × (v < 2) }
    ensures { CutPut deep panel.old n.0 v panel.new }
{
    sums::put_leaf(panel, deep, cut_place(deep, n), v);
}

// Cuts node n, which is not cut and whose children stand `levels` above depth D: the new leaf, n's right child, gets the pin of l. Only a pin
// that is set is written: where no leaf bit was, no pin lies.
fn cut_under(panel: &mut [u8], deep: usize, n: Node, levels: usize, l: Node)
    requires { Cuttable deep panel.old n.0 levels × (1 ≤ l.0) × (depth_of l.0 ≤ deep) }
    ensures { CutUnder deep panel.old n.0 l.0 panel.new }
{
    let v = pins::pin(panel, deep, pins::leaf_place(deep, l));
    let p = place_above(deep, n, levels);
    sums::put_leaf(panel, deep, p, 1);
    if v == 1 {
        pins::put_pin(panel, deep, p, 1);
    }
}

// Splits leaf k, which is not at depth D: cuts it and what its cut forces, the neighbour across the long side, its uncut parent, and so
// on up. Each new leaf gets the pin of the old leaf that it lies below: the neighbour's cut that of the neighbour, or of its uncut parent,
// before that one is cut. The children of a node and of the neighbour across stand `levels` above depth D.
pub fn split_leaf(panel: &mut [u8], deep: usize, k: Node)
    requires { Good panel.old × (deep ≡ deep_of panel.old) × LeafOf panel.old k.0 × (depth_of k.0 < deep) }
    ensures { SplitAt panel.old k.0 panel.new }
{
    let mut cur = k.0;
    let mut levels = deep - 1 - nodes::depth(k) as usize;
    loop {
        cut_under(panel, deep, Node(cur), levels, Node(cur));
        let e = nodes::edge_of(Node(cur));
        if e == 0 {
            return;
        }
        let up = e / 2;
        if is_cut_above(panel, deep, Node(up), levels + 1) {
            cut_under(panel, deep, Node(e), levels, Node(e));
            return;
        }
        cut_under(panel, deep, Node(e), levels, Node(up));
        cur = up;
        levels += 1;
    }
}

// Merges leaf k, deeper than 1, where the leaves are there that this needs, and none of them is pinned: takes back its parent's cut and,
// where the parent has an edge neighbour, that one's.
pub fn merge_leaves(panel: &mut [u8], deep: usize, k: Node)
    requires { Good panel.old × (deep ≡ deep_of panel.old) × LeafOf panel.old k.0 × (1 < depth_of k.0) × Together panel.old k.0 × Unpinned panel.old k.0 }
    ensures { MergeAt panel.old k.0 panel.new }
{
    let q = k.0 / 2;
    put_cut(panel, deep, Node(q), 0);
    let e = nodes::edge_of(Node(q));
    if e != 0 {
        put_cut(panel, deep, Node(e), 0);
    }
}
