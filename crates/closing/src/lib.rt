// Closing the cuts that leaf bits name: one pass over the levels, the deepest first, that cuts what a good set asks for and no more. A cut
// node asks for its edge neighbour, which stands on its own level, and for its parent, on the next: a level that is passed asks no more.
#![tactic(auto)]

pub mod nodewise; // a level, node by node
pub mod wordwise; // the deepest level, 32 leaf bits at a time

ghost use Rattle.std.specs.Prelude.{◌+◌, ◌^◌, ◌≤◌, ◌<◌};
ghost use Rattle.words.specs.inner.Working.{Room};
ghost use Rattle.cuts.specs.inner.Closing.{CutsDrawn, CutsClosed};

use crate::nodewise::{cut_above, draw_nodes};
use crate::wordwise::draw_words;
use nodes::Node;

// Cuts what the cut nodes of depth d ask for.
fn draw_level(bytes: &mut [u8], deep: usize, d: usize)
    requires { Room deep bytes.old × (1 ≤ d) × (d < deep) }
    ensures { CutsDrawn deep (2 ^ d) (2 ^ (d + 1)) bytes.old bytes.new }
{
    if d + 1 == deep && 6 <= deep {
        draw_words(bytes, deep, d);
    } else {
        draw_nodes(bytes, deep, d);
    }
}

// Cuts node 1 and what all cuts ask for.
pub fn close_cuts(bytes: &mut [u8], deep: usize)
    requires { Room deep bytes.old }
    ensures { CutsClosed deep bytes.old bytes.new }
{
    cut_above(bytes, deep, Node(1), deep - 1);
    for d in (1..deep).rev() {
        draw_level(bytes, deep, d);
    }
}
