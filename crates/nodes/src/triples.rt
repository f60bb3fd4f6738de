// A node's neighbours of its own depth.
ghost use Rattle.std.specs.Prelude.{◌≡◌, ◌^◌, ◌≤◌, ◌<◌};
ghost use Rattle.nodes.specs.Neighbours.{right_child, left_triple, right_triple, neighbours_of};

use crate::numbers::{Node, depth};

// Left, right and edge; 0 is none, as in the numbers that go out.
#[derive(Clone, Copy, Debug, PartialEq, Eq, Hash)]
pub struct Triple {
    pub left: u32,
    pub right: u32,
    pub edge: u32,
}

// The right child of x, and none of none.
fn right_child_of(x: u32) -> u32
    requires { x < 2 ^ 31 }
    ensures { result ≡ right_child x }
{
    if x == 0 {
        return 0;
    }
    2 * x + 1
}

impl Triple {
    // From n's neighbours to those of its left child. Each child has a method, as each has a rule in the scope document.
    pub fn left_child(self, n: Node) -> Triple
        requires { (n.0 < 2 ^ 31) × (self.right < 2 ^ 31) × (self.edge < 2 ^ 31) }
        ensures { result ≡ left_triple self n.0 }
    {
        let right = right_child_of(self.edge);
        let edge = right_child_of(self.right);
        Triple {
            left: 2 * n.0 + 1,
            right,
            edge,
        }
    }

    // From n's neighbours to those of its right child.
    pub fn right_child(self, n: Node) -> Triple
        requires { (n.0 < 2 ^ 31) × (self.left < 2 ^ 31) × (self.edge < 2 ^ 31) }
        ensures { result ≡ right_triple self n.0 }
    {
        Triple {
            left: 2 * self.edge,
            right: 2 * n.0,
            edge: 2 * self.left,
        }
    }
}

// The neighbours of n, level by level down from node 2 or 3.
pub fn triple_of(n: Node) -> Triple
    requires { (2 ≤ n.0) × (n.0 < 2 ^ 18) }
    ensures { result ≡ neighbours_of n.0 }
{
    let k = n.0;
    let levels = depth(n) - 1;
    let mut t = Triple {
        left: 0,
        right: 0,
        edge: 5 - (k >> levels),
    };
    for level in (0..levels).rev() {
        let child = k >> level;
        let up = Node(child / 2);
        t = if child % 2 == 0 {
            t.left_child(up)
        } else {
            t.right_child(up)
        };
    }
    t
}
