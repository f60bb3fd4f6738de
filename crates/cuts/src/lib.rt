// Cuts: specs/ and proofs/ have sets of cuts, their leaves and the numbers of these, over any leaf bits. Here is a cut and the leaf bit
// that names it: where the bit of a node is, whether the node is cut, and whether it may be.
#![tactic(auto)]

ghost use Rattle.std.specs.Prelude.{◌≡◌, ◌+◌, ◌^◌, ◌≤◌, ◌<◌};
ghost use Rattle.std.specs.Int.Count.{count_trailing_zeros};
ghost use Rattle.nodes.specs.Depth.{depth_of};
ghost use Rattle.tables.specs.inner.Says.{Says};
ghost use Rattle.words.specs.Words.{leaf_bit};
ghost use Rattle.words.specs.inner.Working.{Room};
ghost use Rattle.cuts.specs.Cuts.{Cut, named};
ghost use Rattle.cuts.specs.inner.Steps.{CutPlace, Follows, NodeOf, AcrossCut, PlaceFollows};

use nodes::Node;

// The place of the leaf bit that names n, whose children stand `levels` above depth deep: the leftmost below the right one.
pub fn place_above(deep: usize, n: Node, levels: usize) -> usize
    requires { (deep ≤ 17) × (1 ≤ n.0) × (depth_of n.0 + 1 + levels ≡ deep) }
    ensures { CutPlace deep n.0 result }
{
    ((2 * n.0 as usize + 1) << levels) - (1usize << deep)
}

// The place of the leaf bit that names n.
pub fn cut_place(deep: usize, n: Node) -> usize
    requires { (deep ≤ 17) × (1 ≤ n.0) × (depth_of n.0 < deep) }
    ensures { CutPlace deep n.0 result }
{
    place_above(deep, n, deep - 1 - nodes::depth(n) as usize)
}

// Whether node n, whose children stand `levels` above depth deep, is cut: whether the leaf bit that names it is set.
pub fn is_cut_above(bytes: &[u8], deep: usize, n: Node, levels: usize) -> bool
    requires { Room deep bytes.now × (1 ≤ n.0) × (depth_of n.0 + 1 + levels ≡ deep) }
    ensures { Says (Cut deep (leaf_bit deep bytes.now) n.0) result }
{
    words::leaf_bit(bytes, deep, place_above(deep, n, levels)) == 1
}

// Whether node n is cut. No node of depth deep is.
pub fn is_cut(bytes: &[u8], deep: usize, n: Node) -> bool
    requires { Room deep bytes.now × NodeOf deep n.0 }
    ensures { Says (Cut deep (leaf_bit deep bytes.now) n.0) result }
{
    let d = nodes::depth(n) as usize;
    d < deep && is_cut_above(bytes, deep, n, deep - 1 - d)
}

// The node that leaf bit p names: with t trailing zeros in p, (2^D + p) / 2^t is a right child, and this its parent.
fn named_node(deep: usize, p: usize, t: u32) -> Node
    requires { (deep ≤ 17) × (0 < p) × (p < 2 ^ deep) × (t ≡ count_trailing_zeros 32 p) }
    ensures { result.0 ≡ named deep p }
{
    Node((((1usize << deep) + p) >> t) as u32 / 2)
}

// Whether the edge neighbour of n, whose children stand `levels` above depth deep, is none or is cut.
fn across_cut(bytes: &[u8], deep: usize, n: Node, levels: usize) -> bool
    requires { Room deep bytes.now × (2 ≤ n.0) × (depth_of n.0 + 1 + levels ≡ deep) }
    ensures { Says (AcrossCut (Cut deep (leaf_bit deep bytes.now)) n.0) result }
{
    let e = nodes::edge_of(n);
    e == 0 || is_cut_above(bytes, deep, Node(e), levels)
}

// Whether n, whose children stand `levels` above depth deep, may be cut: its parent is, and its edge neighbour, where that is a node.
fn may_be_cut(bytes: &[u8], deep: usize, n: Node, levels: usize) -> bool
    requires { Room deep bytes.now × (1 ≤ n.0) × (depth_of n.0 + 1 + levels ≡ deep) }
    ensures { Says (Follows (Cut deep (leaf_bit deep bytes.now)) n.0) result }
{
    if n.0 < 2 {
        return true;
    }
    is_cut_above(bytes, deep, Node(n.0 / 2), levels + 1) && across_cut(bytes, deep, n, levels)
}

// Whether the node that leaf bit p names, where p is not 0 and the bit is set, may be cut.
pub fn place_follows(bytes: &[u8], deep: usize, p: usize) -> bool
    requires { Room deep bytes.now × (p < 2 ^ deep) }
    ensures { Says (PlaceFollows deep (leaf_bit deep bytes.now) p) result }
{
    if p == 0 || words::leaf_bit(bytes, deep, p) != 1 {
        return true;
    }
    let t = (p as u32).trailing_zeros();
    may_be_cut(bytes, deep, named_node(deep, p, t), t as usize)
}
