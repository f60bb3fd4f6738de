// Mending a lent panel: the call `mend`, from bytes of a right length, whatever they hold, to the smallest good panel that holds the cuts they name.
#![tactic(auto)]

ghost use Rattle.answers.specs.Refusals.{answer_number, answer_value};
ghost use Rattle.words.specs.inner.Working.{Room};
ghost use Rattle.panel.specs.Panels.{Fits};
ghost use Rattle.panel.specs.Calls.{MendedBy, Mend};
ghost use Rattle.mending.specs.inner.Mending.{Begun};

use answers::Refusal;
use panel::judging::depth_of;

// Clears the spare bits, writes the depth word and sets leaf bit 0.
fn begin(panel: &mut [u8], deep: usize)
    requires { Room deep panel.old }
    ensures { Begun deep panel.old panel.new }
{
    // the depth word with the spare bits before it
    fields::put_field(panel, 0, deep + 3, 4 * deep as u32);
    words::put_leaf_bit(panel, deep, 0, 1);
}

// Mends a panel of this depth, and says how many cuts that added: the leaf bits set, less those set before, bit 0 counted in both.
fn mend_right(panel: &mut [u8], deep: usize) -> u32
    requires { Fits panel.old deep }
    ensures { MendedBy panel.old (record { panel = panel.new; added = result }) }
{
    begin(panel, deep);
    making::make_sums(panel, deep);
    let old = words::get_word(panel, deep, 1);
    closing::close_cuts(panel, deep);
    making::make_sums(panel, deep);
    pins::keep_on_leaves(panel, deep);
    words::get_word(panel, deep, 1) - old
}

// Mends the panel: the cuts added, or refusal 1 and no byte written.
pub fn mend(panel: &mut [u8]) -> Result<u32, Refusal>
    ensures { Mend panel.old (answer_number result) (record { panel = panel.new; added = answer_value result }) }
{
    let deep = depth_of(panel).ok_or(Refusal::WrongLength)?;
    Ok(mend_right(panel, deep))
}
