// Records in turn on a lent buffer: what a run of the program and a round have in common.
#![tactic(auto)]

ghost use Rattle.std.specs.Prelude.{◌+◌, ◌*◌, ◌≤◌, length};
ghost use Rattle.steps.specs.Holding.{depth_or_0, Keeps};
ghost use Rattle.turns.specs.Runs.{Runs};

use answers::number;
use records::record_at;
use steps::step;

// Works through as many records as there are answers to write, in turn, those of the kinds from `first` to `last`. `deep` is the depth of the
// panel that is open at the buffer's start, if one is.
pub fn in_turn(
    records: &[u8],
    buffer: &mut [u8],
    answers: &mut [u8],
    deep: &mut Option<usize>,
    first: u8,
    last: u8,
)
    requires { Keeps deep.old buffer.old × (8 * length answers.old ≤ length records.now + 7) × (last ≤ 4) }
    ensures runs { Runs first last records.now (depth_or_0 deep.old) buffer.old answers.new (depth_or_0 deep.new) buffer.new }
    ensures keeps { Keeps deep.new buffer.new }
{
    for (i, answer) in answers.iter_mut().enumerate() {
        let done = step(record_at(records, i), buffer, deep, first, last);
        *answer = number(done) as u8;
    }
}
