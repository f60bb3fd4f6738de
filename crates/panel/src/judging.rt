// Judging a lent panel: its length, its words, its cuts, its pins.
ghost use Rattle.answers.specs.Refusals.{answer_number, answer_value};
ghost use Rattle.panel.specs.Calls.{Judged};
ghost use Rattle.panel.specs.inner.Judging.{Deep, GoodDepth};

use crate::sizes::{GREATEST_SIZE, size};
use answers::Refusal;
use nodes::Node;

// The depth of the panel by its length, or none where the length is wrong.
pub fn depth_of(panel: &[u8]) -> Option<usize>
    ensures { Deep panel.now result }
{
    let n = panel.len();
    if n < size(nodes::LEAST_DEPTH) || GREATEST_SIZE < n {
        return None;
    }
    let deep = nodes::depth(Node(n as u32)) as usize + 1;
    if n != size(deep) {
        return None;
    }
    Some(deep)
}

// What every call on a panel begins with: the depth of a good panel, or refusal 1 or 2.
pub fn good_depth(panel: &[u8]) -> Result<usize, Refusal>
    ensures { GoodDepth panel.now (answer_number result) (answer_value result) }
{
    let deep = depth_of(panel).ok_or(Refusal::WrongLength)?;
    if testing::all_right(panel, deep)
        && words::leaf_bit(panel, deep, 0) == 1
        && goodcuts::cuts_good(panel, deep)
        && pins::pins_on_leaves(panel, deep)
    {
        return Ok(deep);
    }
    Err(Refusal::NotGood)
}

// Whether the panel is good: 0, or refusal 1 or 2.
pub fn judge(panel: &[u8]) -> Result<(), Refusal>
    ensures { Judged panel.now (answer_number result) }
{
    good_depth(panel)?;
    Ok(())
}
