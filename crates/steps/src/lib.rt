// One record: the call that it asks for, on the panel at the start of the lent buffer. `deep` is the depth of the panel that is open there, if one is.
// The two stay parameters: a struct that held the lent buffer would need a clause at each function that it is that buffer still, and that the panel
// is good can be no ghost field, which has to be a fact of which all proofs are equal.
#![tactic(auto)]

ghost use Rattle.std.specs.Prelude.{◌≡◌, ◌≤◌};
ghost use Rattle.answers.specs.Refusals.{answer_number};
ghost use Rattle.tables.specs.inner.Says.{Says};
ghost use Rattle.panel.specs.Panels.{Fits, deep_of, Good};
ghost use Rattle.records.specs.inner.Kinds.{kind_number};
ghost use Rattle.steps.specs.Steps.{panel_in, leaves_in, Called, Step};
ghost use Rattle.steps.specs.inner.Changing.{Change};
ghost use Rattle.steps.specs.Holding.{depth_or_0, Keeps};

use answers::Refusal;
use nodes::{GREATEST_DEPTH, LEAST_DEPTH, Node};
use panel::size;
use records::{Kind, Request};

// The leaves of a fresh panel: one of more is in use, and no open takes its place.
const FRESH_LEAVES: u32 = 2;

// How many leaves the open panel has, and 0 where none is open.
pub fn leaf_count(buffer: &[u8], deep: Option<usize>) -> u32
    requires { Keeps deep buffer.now }
    ensures { result ≡ leaves_in (depth_or_0 deep) buffer.now }
{
    match deep {
        Some(deep) => leaves::count(&buffer[..size(deep)], deep),
        None => 0,
    }
}

// Whether a panel of the asked depth can stand at the start of the buffer.
fn has_room(buffer: &[u8], asked: usize) -> bool
    ensures { Says (Fits (panel_in asked buffer.now) asked) result }
{
    (LEAST_DEPTH..=GREATEST_DEPTH).contains(&asked) && size(asked) <= buffer.len()
}

// Opens a panel of this depth at the start of the buffer: 0, or refusal 1, or 18 while the open panel has more than two leaves. A refused open
// keeps the panel before it.
fn open(buffer: &mut [u8], deep: &mut Option<usize>, depth: u32) -> Result<(), Refusal>
    requires { Keeps deep.old buffer.old }
    ensures called { Called depth (depth_or_0 deep.old) buffer.old 0 (answer_number result) (depth_or_0 deep.new) buffer.new }
    ensures keeps { Keeps deep.new buffer.new }
{
    let asked = depth as usize;
    if !has_room(buffer, asked) {
        return Err(Refusal::WrongLength);
    }
    if leaf_count(buffer, *deep) > FRESH_LEAVES {
        return Err(Refusal::PanelInUse);
    }
    opening::make_fresh(&mut buffer[..size(asked)], asked);
    *deep = Some(asked);
    Ok(())
}

// Splits, merges, pins or unpins leaf k of a good panel, by the kind.
fn change(panel: &mut [u8], deep: usize, kind: Kind, k: Node) -> Result<(), Refusal>
    requires { Good panel.old × (deep ≡ deep_of panel.old) × (1 ≤ kind_number kind) }
    ensures { Change panel.old k.0 (kind_number kind) (answer_number result) panel.new }
{
    match kind {
        Kind::Open => unreachable!(),
        Kind::Split => changes::split(panel, deep, k),
        Kind::Merge => changes::merge(panel, deep, k),
        Kind::Pin => pinning::put_pin(panel, deep, k, 1),
        Kind::Unpin => pinning::put_pin(panel, deep, k, 0),
    }
}

// The same of the open panel, which is lent from the buffer.
fn change_open(buffer: &mut [u8], deep: Option<usize>, kind: Kind, k: Node) -> Result<(), Refusal>
    requires { Keeps deep buffer.old × (1 ≤ kind_number kind) }
    ensures called { Called k.0 (depth_or_0 deep) buffer.old (kind_number kind) (answer_number result) (depth_or_0 deep) buffer.new }
    ensures keeps { Keeps deep buffer.new }
{
    let deep = deep.ok_or(Refusal::WrongLength)?;
    change(&mut buffer[..size(deep)], deep, kind, k)
}

// Does what the record asks, if it is of a kind from `first` to `last`, and says what it comes to.
pub fn step(
    request: &[u8],
    buffer: &mut [u8],
    deep: &mut Option<usize>,
    first: u8,
    last: u8,
) -> Result<(), Refusal>
    requires { Keeps deep.old buffer.old × (last ≤ 4) }
    ensures step { Step first last request.now (depth_or_0 deep.old) buffer.old (answer_number result) (depth_or_0 deep.new) buffer.new }
    ensures keeps { Keeps deep.new buffer.new }
{
    let Request { kind, number } = records::read(request, first, last).ok_or(Refusal::BadRecord)?;
    match kind {
        Kind::Open => open(buffer, deep, number),
        _ => change_open(buffer, *deep, kind, Node(number)),
    }
}
