// The calls for C and Rust on a panel: numbers and lent bytes only, the answer's number returned. Each promises what the call behind it does.
#![tactic(auto)]

ghost use Rattle.panel.specs.Calls.{Open, Judged, Count, LeafAt, Ancestor, NumberOf, PinOf, Split, Merge, Pin, Unpin, Mend};
ghost use Rattle.rounds.specs.Rounds.{Round};
ghost use Rattle.jolpibhar.specs.Parts.{LeafBytes};

use nodes::{LeafNumber, Node};

// Opens the panel: writes every byte of it, or refuses with 1 and writes none.
#[unsafe(no_mangle)]
pub extern "C" fn panel_open(panel: &mut [u8], depth: u32) -> u32
    ensures { Open panel.old depth result panel.new }
{
    answers::number(opening::open(panel, depth))
}

// Whether the panel is good.
#[unsafe(no_mangle)]
pub extern "C" fn panel_judge(panel: &[u8]) -> u32
    ensures { Judged panel.now result }
{
    answers::number(panel::judge(panel))
}

// The number of leaves.
#[unsafe(no_mangle)]
pub extern "C" fn panel_count(panel: &[u8], count: &mut u32) -> u32
    ensures { Count panel.now result count.new }
{
    let counted = calls::count(panel);
    *count = counted.unwrap_or(0);
    answers::number(counted)
}

// The node of a leaf number.
#[unsafe(no_mangle)]
pub extern "C" fn panel_leaf(panel: &[u8], number: u32, node: &mut u32) -> u32
    ensures { LeafAt panel.now number result node.new }
{
    let found = calls::leaf_at(panel, LeafNumber(number));
    *node = found.map_or(0, |k| k.0);
    answers::number(found)
}

// The leaf number of a node, and beside 10 the leaf above it.
#[unsafe(no_mangle)]
pub extern "C" fn panel_number(panel: &[u8], node: u32, number: &mut u32, ancestor: &mut u32) -> u32
    ensures number_of { NumberOf panel.now node result number.new }
    ensures ancestor { Ancestor panel.now node result ancestor.new }
{
    let numbered = calls::number_of(panel, Node(node));
    *number = numbered.map_or(0, |i| i.0);
    *ancestor = answers::ancestor(numbered);
    answers::number(numbered)
}

// Whether a leaf is pinned, 1 or 0, and beside 10 the leaf above the node.
#[unsafe(no_mangle)]
pub extern "C" fn panel_pinned(panel: &[u8], node: u32, pinned: &mut u32, ancestor: &mut u32) -> u32
    ensures pin_of { PinOf panel.now node result pinned.new }
    ensures ancestor { Ancestor panel.now node result ancestor.new }
{
    let told = calls::pinned(panel, Node(node));
    *pinned = told.map_or(0, u32::from);
    *ancestor = answers::ancestor(told);
    answers::number(told)
}

// Which bytes of the panel the leaf bits fill: the place of the first, and how many.
#[unsafe(no_mangle)]
pub extern "C" fn panel_leaf_bits(panel: &[u8], start: &mut usize, size: &mut usize) -> u32
    ensures { LeafBytes panel.now result (record { start = start.new; size = size.new }) }
{
    let mut number: u32 = 0;
    let part = calls::leaf_bits(panel, &mut number);
    let bytes = part.len();
    *start = 3 * bytes;
    *size = bytes;
    number
}

// Splits a leaf, or refuses and writes no byte of the panel; beside 10 the leaf above the node.
#[unsafe(no_mangle)]
pub extern "C" fn panel_split(panel: &mut [u8], node: u32, ancestor: &mut u32) -> u32
    ensures split { Split panel.old node result panel.new }
    ensures ancestor { Ancestor panel.old node result ancestor.new }
{
    let cut = calls::split(panel, Node(node));
    *ancestor = answers::ancestor(cut);
    answers::number(cut)
}

// Merges a leaf, or refuses and writes no byte of the panel; beside 10 the leaf above the node.
#[unsafe(no_mangle)]
pub extern "C" fn panel_merge(panel: &mut [u8], node: u32, ancestor: &mut u32) -> u32
    ensures merge { Merge panel.old node result panel.new }
    ensures ancestor { Ancestor panel.old node result ancestor.new }
{
    let merged = calls::merge(panel, Node(node));
    *ancestor = answers::ancestor(merged);
    answers::number(merged)
}

// Pins a leaf, or refuses and writes no byte of the panel; beside 10 the leaf above the node.
#[unsafe(no_mangle)]
pub extern "C" fn panel_pin(panel: &mut [u8], node: u32, ancestor: &mut u32) -> u32
    ensures pin { Pin panel.old node result panel.new }
    ensures ancestor { Ancestor panel.old node result ancestor.new }
{
    let pinned = calls::pin(panel, Node(node));
    *ancestor = answers::ancestor(pinned);
    answers::number(pinned)
}

// Takes a leaf's pin back, or refuses and writes no byte of the panel; beside 10 the leaf above the node.
#[unsafe(no_mangle)]
pub extern "C" fn panel_unpin(panel: &mut [u8], node: u32, ancestor: &mut u32) -> u32
    ensures unpin { Unpin panel.old node result panel.new }
    ensures ancestor { Ancestor panel.old node result ancestor.new }
{
    let unpinned = calls::unpin(panel, Node(node));
    *ancestor = answers::ancestor(unpinned);
    answers::number(unpinned)
}

// Mends the panel from whatever bytes it holds, with the cuts that this added, or refuses with 1 and writes no byte of it.
#[unsafe(no_mangle)]
pub extern "C" fn panel_mend(panel: &mut [u8], added: &mut u32) -> u32
    ensures { Mend panel.old result (record { panel = panel.new; added = added.new }) }
{
    let mended = mending::mend(panel);
    *added = mended.unwrap_or(0);
    answers::number(mended)
}

// Works through records of splits and merges in turn, an answer byte for each, or refuses and writes no byte.
#[unsafe(no_mangle)]
pub extern "C" fn panel_round(panel: &mut [u8], records: &[u8], answers: &mut [u8]) -> u32
    ensures { Round panel.old records.now answers.old result (record { panel = panel.new; answers = answers.new }) }
{
    answers::number(rounds::round(panel, records, answers))
}
