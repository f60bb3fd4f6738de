// The calls for C and Rust that take no panel: numbers only, the answer's number returned. Each promises what the call behind it does.
#![tactic(auto)]

ghost use Rattle.node_calls.specs.Calls.{Neighbours, Corners};
ghost use Rattle.triangles.specs.Corners.{point, triangle};

use nodes::{Node, Triple};

// What goes out beside a refusal.
const NONE: Triple = Triple {
    left: 0,
    right: 0,
    edge: 0,
};

// The neighbours of a node; 0 is none.
#[unsafe(no_mangle)]
pub extern "C" fn node_neighbours(node: u32, left: &mut u32, right: &mut u32, edge: &mut u32) -> u32
    ensures { Neighbours node result (record { left = left.new; right = right.new; edge = edge.new }) }
{
    let around = node_calls::neighbours(Node(node));
    let t = around.unwrap_or(NONE);
    *left = t.left;
    *right = t.right;
    *edge = t.edge;
    answers::number(around)
}

// The corners A, B, C of a node.
#[unsafe(no_mangle)]
pub extern "C" fn node_corners(
    node: u32,
    ax: &mut u32,
    ay: &mut u32,
    bx: &mut u32,
    by: &mut u32,
    cx: &mut u32,
    cy: &mut u32,
) -> u32
    ensures { Corners node result (triangle (point ax.new ay.new) (point bx.new by.new) (point cx.new cy.new)) }
{
    let corners = node_calls::corners(Node(node));
    let t = corners.unwrap_or([[0; 2]; 3]);
    *ax = t[0][0];
    *ay = t[0][1];
    *bx = t[1][0];
    *by = t[1][1];
    *cx = t[2][0];
    *cy = t[2][1];
    answers::number(corners)
}
