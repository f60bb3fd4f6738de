// A level, one node after the other.
ghost use Rattle.std.specs.Prelude.{◌≡◌, ◌+◌, ◌^◌, ◌≤◌, ◌<◌};
ghost use Rattle.nodes.specs.Depth.{depth_of};
ghost use Rattle.tables.specs.inner.Says.{Says};
ghost use Rattle.words.specs.Words.{leaf_bit};
ghost use Rattle.words.specs.inner.Working.{Room};
ghost use Rattle.cuts.specs.Cuts.{Cut};
ghost use Rattle.cuts.specs.inner.Closing.{Asked, CutAlso, CutsDrawn};

use cuts::{is_cut_above, place_above};
use nodes::Node;

// Cuts node n, whose children stand `levels` above depth deep. Where it is cut, nothing is written: the next bits of the byte need not wait.
pub fn cut_above(bytes: &mut [u8], deep: usize, n: Node, levels: usize)
    requires { Room deep bytes.old × (1 ≤ n.0) × (depth_of n.0 + 1 + levels ≡ deep) }
    ensures { CutAlso deep n.0 bytes.old bytes.new }
{
    let p = place_above(deep, n, levels);
    if words::leaf_bit(bytes, deep, p) != 1 {
        words::put_leaf_bit(bytes, deep, p, 1);
    }
}

// Whether node n, whose children stand `levels` above depth deep, is to be cut: it is, or its edge neighbour is.
fn is_asked(bytes: &[u8], deep: usize, n: Node, levels: usize) -> bool
    requires { Room deep bytes.now × (2 ≤ n.0) × (depth_of n.0 + 1 + levels ≡ deep) }
    ensures { Says (Asked (Cut deep (leaf_bit deep bytes.now)) n.0) result }
{
    if is_cut_above(bytes, deep, n, levels) {
        return true;
    }
    let e = nodes::edge_of(n);
    e != 0 && is_cut_above(bytes, deep, Node(e), levels)
}

// Cuts node n and its parent, where n is to be cut.
fn draw_node(bytes: &mut [u8], deep: usize, n: Node, levels: usize)
    requires { Room deep bytes.old × (2 ≤ n.0) × (depth_of n.0 + 1 + levels ≡ deep) }
    ensures { CutsDrawn deep n.0 (n.0 + 1) bytes.old bytes.new }
{
    if is_asked(bytes, deep, n, levels) {
        cut_above(bytes, deep, n, levels);
        cut_above(bytes, deep, Node(n.0 / 2), levels + 1);
    }
}

// All nodes of depth d.
pub fn draw_nodes(bytes: &mut [u8], deep: usize, d: usize)
    requires { Room deep bytes.old × (1 ≤ d) × (d < deep) }
    ensures { CutsDrawn deep (2 ^ d) (2 ^ (d + 1)) bytes.old bytes.new }
{
    let levels = deep - 1 - d;
    for n in (1u32 << d)..(2u32 << d) {
        draw_node(bytes, deep, Node(n), levels);
    }
}
