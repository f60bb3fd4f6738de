// The two calls that take no panel, neighbours and corners.
#![tactic(auto)]

ghost use Rattle.answers.specs.Refusals.{answer_number, answer_triple};
ghost use Rattle.node_calls.specs.Calls.{Neighbours, Corners, answer_triangle};

use answers::Refusal;
use nodes::{Node, Triple};

// The corners of n, counterclockwise with y upward; refused below 2 and above the greatest node.
pub fn corners(n: Node) -> Result<[[u32; 2]; 3], Refusal>
    ensures { Corners n.0 (answer_number result) (answer_triangle result) }
{
    if nodes::known(n) {
        return Ok(triangles::turned_corners(n));
    }
    Err(Refusal::NoSuchNode)
}

// The neighbours of n; refused below 2 and above the greatest node.
pub fn neighbours(n: Node) -> Result<Triple, Refusal>
    ensures { Neighbours n.0 (answer_number result) (answer_triple result) }
{
    if !nodes::known(n) {
        return Err(Refusal::NoSuchNode);
    }
    Ok(nodes::triple_of(n))
}
