// Opening a lent panel: the call `open`.
#![tactic(auto)]

ghost use Rattle.answers.specs.Refusals.{answer_number};
ghost use Rattle.tables.specs.inner.Says.{Says};
ghost use Rattle.panel.specs.Panels.{Fits};
ghost use Rattle.panel.specs.Calls.{Fresh, Open};

use answers::Refusal;
use nodes::{GREATEST_DEPTH, LEAST_DEPTH};
use panel::size;

// Whether a panel of this depth has this length.
fn fits(panel: &[u8], depth: u32) -> bool
    ensures { Says (Fits panel.now depth) result }
{
    let deep = depth as usize;
    (LEAST_DEPTH..=GREATEST_DEPTH).contains(&deep) && panel.len() == size(deep)
}

// Writes the good panel whose only cut is node 1: its leaves are 2 and 3.
pub fn make_fresh(panel: &mut [u8], deep: usize)
    requires { Fits panel.old deep }
    ensures { Fresh deep panel.new }
{
    panel.fill(0);
    words::put_word(panel, deep, 0, deep as u32);
    words::put_leaf_bit(panel, deep, 0, 1);
    words::put_leaf_bit(panel, deep, 1usize << (deep - 1), 1);
    making::make_sums(panel, deep);
}

// Opens the panel: writes every byte of it, or refuses with 1 and writes none.
pub fn open(panel: &mut [u8], depth: u32) -> Result<(), Refusal>
    ensures { Open panel.old depth (answer_number result) panel.new }
{
    if !fits(panel, depth) {
        return Err(Refusal::WrongLength);
    }
    make_fresh(panel, depth as usize);
    Ok(())
}
