// The calls that read a lent panel. Each judges it first.
ghost use Rattle.answers.specs.Refusals.{answer_number, answer_value, answer_node, answer_leaf, answer_pin, answer_ancestor};
ghost use Rattle.panel.specs.Calls.{Count, LeafAt, Ancestor, NumberOf, PinOf, LeafBits};

use answers::Refusal;
use nodes::{LeafNumber, Node};
use panel::judging::good_depth;

// The leaf count, or refusal 1 or 2.
pub fn count(panel: &[u8]) -> Result<u32, Refusal>
    ensures { Count panel.now (answer_number result) (answer_value result) }
{
    Ok(leaves::count(panel, good_depth(panel)?))
}

// The leaf of number i, or refusal 1, 2 or 8.
pub fn leaf_at(panel: &[u8], i: LeafNumber) -> Result<Node, Refusal>
    ensures { LeafAt panel.now i.0 (answer_number result) (answer_node result) }
{
    let deep = good_depth(panel)?;
    if i.0 >= leaves::count(panel, deep) {
        return Err(Refusal::NoSuchNumber);
    }
    Ok(leaves::leaf_at(panel, deep, i))
}

// The number of leaf k, or refusal 1, 2, 3, 4 or 10.
pub fn number_of(panel: &[u8], k: Node) -> Result<LeafNumber, Refusal>
    ensures number_of { NumberOf panel.now k.0 (answer_number result) (answer_leaf result) }
    ensures ancestor { Ancestor panel.now k.0 (answer_number result) (answer_ancestor result) }
{
    leaves::number_of(panel, good_depth(panel)?, k)
}

// Whether leaf k is pinned, or refusal 1, 2, 3, 4 or 10.
pub fn pinned(panel: &[u8], k: Node) -> Result<bool, Refusal>
    ensures pin_of { PinOf panel.now k.0 (answer_number result) (answer_pin result) }
    ensures ancestor { Ancestor panel.now k.0 (answer_number result) (answer_ancestor result) }
{
    pinning::pinned(panel, good_depth(panel)?, k)
}

// The bytes that the leaf bits fill, as a part of the panel, and into `answer` the answer's number; empty where it is 1 or 2. No `Result` hands
// them out: the part is to be there beside a refusal too, empty.
pub fn leaf_bits<'a>(panel: &'a [u8], answer: &mut u32) -> &'a [u8]
    ensures { LeafBits panel.now answer.new result.now }
{
    let judged = good_depth(panel);
    *answer = answers::number(judged);
    match judged {
        Ok(deep) => words::leaf_part(panel, deep),
        Err(_) => &panel[..0],
    }
}
