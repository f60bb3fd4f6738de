// Judging 64 leaf bits at a time, at depths from 7: the leaf word below each node q, six levels above depth D.
#![tactic(auto)]

ghost use Rattle.std.specs.Prelude.{◌≡◌, ◌+◌, ◌-◌, ◌/◌, ◌^◌, ◌≤◌, ◌<◌};
ghost use Rattle.nodes.specs.Depth.{depth_of};
ghost use Rattle.tables.specs.inner.Says.{Says};
ghost use Rattle.words.specs.Words.{leaf_bit};
ghost use Rattle.words.specs.inner.Working.{Room};
ghost use Rattle.cuts.specs.Cuts.{Cut};
ghost use Rattle.cuts.specs.inner.Steps.{AllFollow};
ghost use Rattle.leafwords.specs.inner.LeafWord.{CutWord, OuterAcross, SidesFollow, BelowFollow, BlockFollows};

use cuts::{is_cut_above, place_follows};
use leafwords::{inner_same, mirrored, parents_beside, top_same};
use nodes::Node;

// The leaf word below q.
fn word_below(bytes: &[u8], deep: usize, q: Node) -> u64
    requires { Room deep bytes.now × (1 ≤ q.0) × (depth_of q.0 + 6 ≡ deep) }
    ensures { CutWord (Cut deep (leaf_bit deep bytes.now)) q.0 result }
{
    bits::get_bytes::<8>(bytes, (1usize << (deep - 2)) + 8 * q.0 as usize)
}

// Whether each cut node along the long side of q has none or a cut node across it.
fn whole_across(bytes: &[u8], deep: usize, q: Node, b: u64) -> bool
    requires { Room deep bytes.now × (2 ≤ q.0) × (depth_of q.0 + 6 ≡ deep) × CutWord (Cut deep (leaf_bit deep bytes.now)) q.0 b }
    ensures { Says (OuterAcross (Cut deep (leaf_bit deep bytes.now)) q.0) result }
{
    let e = nodes::edge_of(q);
    e == 0 || mirrored(b, word_below(bytes, deep, Node(e)), 2)
}

// Whether each cut node along the long side of n, a child of the node that b stands below, has none or a cut node across it.
fn half_across(bytes: &[u8], deep: usize, n: Node, b: u64) -> bool
    requires { Room deep bytes.now × (4 ≤ n.0) × (depth_of n.0 + 5 ≡ deep) × CutWord (Cut deep (leaf_bit deep bytes.now)) (n.0 / 2) b }
    ensures { Says (OuterAcross (Cut deep (leaf_bit deep bytes.now)) n.0) result }
{
    let e = nodes::edge_of(n);
    if e == 0 {
        return true;
    }
    let x = word_below(bytes, deep, Node(e / 2));
    mirrored(b >> (32 * (n.0 % 2)), x >> (32 * (e % 2)), 1)
}

// Whether q, whose bit is c, is not cut, or its parent is.
fn parent_cut(bytes: &[u8], deep: usize, q: Node, c: u64) -> bool
    requires { Room deep bytes.now × (2 ≤ q.0) × (depth_of q.0 + 6 ≡ deep) × (c < 2) }
    ensures { Says (c ≡ 1 → Cut deep (leaf_bit deep bytes.now) (q.0 / 2)) result }
{
    c == 0 || is_cut_above(bytes, deep, Node(q.0 / 2), 6)
}

// Whether each cut node along the long sides of q and of its children has none or a cut node across it.
fn sides_follow(bytes: &[u8], deep: usize, q: Node, b: u64) -> bool
    requires { Room deep bytes.now × (2 ≤ q.0) × (depth_of q.0 + 6 ≡ deep) × CutWord (Cut deep (leaf_bit deep bytes.now)) q.0 b }
    ensures { Says (SidesFollow (Cut deep (leaf_bit deep bytes.now)) q.0) result }
{
    whole_across(bytes, deep, q, b)
        && half_across(bytes, deep, Node(2 * q.0), b)
        && half_across(bytes, deep, Node(2 * q.0 + 1), b)
}

// Whether q and the nodes to five levels below it, where they are cut, may be.
fn below_follow(bytes: &[u8], deep: usize, q: Node) -> bool
    requires { Room deep bytes.now × (2 ≤ q.0) × (depth_of q.0 + 6 ≡ deep) }
    ensures { Says (BelowFollow (Cut deep (leaf_bit deep bytes.now)) q.0) result }
{
    let b = word_below(bytes, deep, q);
    if b < 2 {
        return true;
    }
    parents_beside(b)
        && inner_same(b)
        && top_same(b)
        && parent_cut(bytes, deep, q, (b >> 32) % 2)
        && sides_follow(bytes, deep, q, b)
}

// Whether the nodes that the set bits of leaf word j name may be cut.
fn block_follows(bytes: &[u8], deep: usize, j: usize) -> bool
    requires { Room deep bytes.now × (7 ≤ deep) × (j < 2 ^ (deep - 6)) }
    ensures { Says (BlockFollows deep (leaf_bit deep bytes.now) j) result }
{
    place_follows(bytes, deep, 64 * j)
        && below_follow(bytes, deep, Node(((1usize << (deep - 6)) + j) as u32))
}

// Whether all nodes that are cut may be.
pub fn blocks_follow(bytes: &[u8], deep: usize) -> bool
    requires { Room deep bytes.now × (7 ≤ deep) }
    ensures { Says (AllFollow deep (leaf_bit deep bytes.now)) result }
{
    let end = 1usize << (deep - 6);
    (0..end).all(|j| block_follows(bytes, deep, j))
}
