// Whether all cuts are good.
#![tactic(auto)]

pub mod shallow; // the cuts of a panel of depth 3 to 6

ghost use Rattle.tables.specs.inner.Says.{Says};
ghost use Rattle.words.specs.Words.{leaf_bit};
ghost use Rattle.words.specs.inner.Working.{Room};
ghost use Rattle.cuts.specs.Cuts.{Cut, GoodCuts};

use crate::shallow::shallow_follow;
use blocks::blocks_follow;
use cuts::is_cut;
use nodes::Node;

// Whether the cuts that the leaf bits name are good.
pub fn cuts_good(bytes: &[u8], deep: usize) -> bool
    requires { Room deep bytes.now }
    ensures { Says (GoodCuts (Cut deep (leaf_bit deep bytes.now))) result }
{
    if !is_cut(bytes, deep, Node(1)) {
        return false;
    }
    if deep < 7 {
        shallow_follow(bytes, deep)
    } else {
        blocks_follow(bytes, deep)
    }
}
