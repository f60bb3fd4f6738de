// The calls that change a lent panel. Each judges it first. Pin and unpin differ in one bit alone, and are two because each is a call of its own
// name, in C too.
ghost use Rattle.answers.specs.Refusals.{answer_number, answer_ancestor};
ghost use Rattle.panel.specs.Calls.{Ancestor, Split, Merge, Pin, Unpin};

use answers::Refusal;
use nodes::Node;
use panel::judging::good_depth;

// Splits leaf k: 0, or refusal 1, 2, 3, 4, 10 or 5 and no byte written.
pub fn split(panel: &mut [u8], k: Node) -> Result<(), Refusal>
    ensures split { Split panel.old k.0 (answer_number result) panel.new }
    ensures ancestor { Ancestor panel.old k.0 (answer_number result) (answer_ancestor result) }
{
    let deep = good_depth(panel)?;
    changes::split(panel, deep, k)
}

// Merges leaf k: 0, or refusal 1, 2, 3, 4, 10, 6, 7 or 11 and no byte written.
pub fn merge(panel: &mut [u8], k: Node) -> Result<(), Refusal>
    ensures merge { Merge panel.old k.0 (answer_number result) panel.new }
    ensures ancestor { Ancestor panel.old k.0 (answer_number result) (answer_ancestor result) }
{
    let deep = good_depth(panel)?;
    changes::merge(panel, deep, k)
}

// Pins leaf k: 0, also where it is pinned, or refusal 1, 2, 3, 4 or 10 and no byte written.
pub fn pin(panel: &mut [u8], k: Node) -> Result<(), Refusal>
    ensures pin { Pin panel.old k.0 (answer_number result) panel.new }
    ensures ancestor { Ancestor panel.old k.0 (answer_number result) (answer_ancestor result) }
{
    let deep = good_depth(panel)?;
    pinning::put_pin(panel, deep, k, 1)
}

// Takes the pin of leaf k back: 0, also where it has none, or refusal 1, 2, 3, 4 or 10 and no byte written.
pub fn unpin(panel: &mut [u8], k: Node) -> Result<(), Refusal>
    ensures unpin { Unpin panel.old k.0 (answer_number result) panel.new }
    ensures ancestor { Ancestor panel.old k.0 (answer_number result) (answer_ancestor result) }
{
    let deep = good_depth(panel)?;
    pinning::put_pin(panel, deep, k, 0)
}
