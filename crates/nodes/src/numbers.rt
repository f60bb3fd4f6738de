// Node numbers and leaf numbers: two kinds of number, and neither passes for the other.
ghost use Rattle.std.specs.Prelude.{◌≡◌, ◌≤◌};
ghost use Rattle.nodes.specs.Depth.{depth_of};
ghost use Rattle.nodes.specs.Limits.{KnownNode};
ghost use Rattle.tables.specs.inner.Says.{Says};

// The least depth that a panel may have.
pub const LEAST_DEPTH: usize = 3;

// The greatest depth that a panel may have.
pub const GREATEST_DEPTH: usize = 17;

// The last node of the greatest depth.
pub const GREATEST_NODE: u32 = (2 << GREATEST_DEPTH) - 1;

// A node's number: node 1 is the whole panel, node k has the children 2k and 2k + 1.
#[derive(Clone, Copy, Debug, PartialEq, Eq, Hash, PartialOrd, Ord)]
pub struct Node(pub u32);

// A leaf's number: how many leaves stand left of it.
#[derive(Clone, Copy, Debug, PartialEq, Eq, Hash, PartialOrd, Ord)]
pub struct LeafNumber(pub u32);

// The depth of n: the place of its highest one bit, by the zeros above it.
pub fn depth(n: Node) -> u32
    requires { 1 ≤ n.0 }
    ensures { result ≡ depth_of n.0 }
{
    31 - n.0.leading_zeros()
}

// Whether a call that takes no panel knows n: from 2 up to the greatest node.
pub fn known(n: Node) -> bool
    ensures { Says (KnownNode n.0) result }
{
    (2..=GREATEST_NODE).contains(&n.0)
}
