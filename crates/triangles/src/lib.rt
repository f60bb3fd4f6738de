// A node's corners: three points of two coordinates, in the order A, B, C. A point is handed on coordinate by coordinate, so that the six numbers stay in registers on the way down.
#![tactic(auto)]

ghost use Rattle.std.specs.Prelude.{◌≡◌, ◌+◌, ◌/◌, ◌%◌, ◌≤◌};
ghost use Rattle.nodes.specs.Depth.{depth_of};
ghost use Rattle.triangles.specs.Corners.{InPanel, first_triangle, left_triangle, right_triangle, corners_of, turned};

use nodes::Node;

// The middle between two coordinates.
fn middle(a: u32, c: u32) -> u32
    requires { (a ≤ 256) × (c ≤ 256) }
    ensures { result ≡ (a + c) / 2 }
{
    (a + c) / 2
}

// From a triangle to its left child: (A, M, B). Each child has a function, as each has a rule in the scope document.
pub fn left_corners(t: [[u32; 2]; 3]) -> [[u32; 2]; 3]
    requires { InPanel t }
    ensures { result ≡ left_triangle t }
{
    let x = middle(t[0][0], t[2][0]);
    let y = middle(t[0][1], t[2][1]);
    [[t[0][0], t[0][1]], [x, y], [t[1][0], t[1][1]]]
}

// From a triangle to its right child: (B, M, C).
pub fn right_corners(t: [[u32; 2]; 3]) -> [[u32; 2]; 3]
    requires { InPanel t }
    ensures { result ≡ right_triangle t }
{
    let x = middle(t[0][0], t[2][0]);
    let y = middle(t[0][1], t[2][1]);
    [[t[1][0], t[1][1]], [x, y], [t[2][0], t[2][1]]]
}

// The corners of node 2 and of node 3.
fn first_corners(n: Node) -> [[u32; 2]; 3]
    ensures { result ≡ first_triangle (n.0 % 2) }
{
    if n.0 % 2 == 0 {
        return [[0, 256], [0, 0], [256, 0]];
    }
    [[256, 0], [256, 256], [0, 256]]
}

// The corners of n, level by level down from node 2 or 3.
pub fn corners_of(n: Node) -> [[u32; 2]; 3]
    requires { 2 ≤ n.0 }
    ensures { result ≡ corners_of n.0 }
{
    let k = n.0;
    let levels = nodes::depth(n) - 1;
    let mut t = first_corners(Node(k >> levels));
    for level in (0..levels).rev() {
        t = if (k >> level) % 2 == 0 {
            left_corners(t)
        } else {
            right_corners(t)
        };
    }
    t
}

// The corners of n as they go out: at even depth A and C change places. Each way has its own descent, so that the exchange costs nothing.
pub fn turned_corners(n: Node) -> [[u32; 2]; 3]
    requires { 2 ≤ n.0 }
    ensures { result ≡ turned (depth_of n.0 % 2) (corners_of n.0) }
{
    if nodes::depth(n) % 2 == 0 {
        let t = corners_of(n);
        return [[t[2][0], t[2][1]], [t[1][0], t[1][1]], [t[0][0], t[0][1]]];
    }
    corners_of(n)
}
