// The call `round`: a run of records on a lent panel, which is judged once.
#![tactic(auto)]

ghost use Rattle.answers.specs.Refusals.{answer_number};
ghost use Rattle.rounds.specs.Rounds.{Round};

use answers::Refusal;
use panel::judging::good_depth;
use records::Kind;
use turns::in_turn;

// Works through the records in turn, splits and merges, and writes an answer byte for each: 0, or refusal 1, 2, 16 or 17 and no byte written.
pub fn round(panel: &mut [u8], records: &[u8], answers: &mut [u8]) -> Result<(), Refusal>
    ensures { Round panel.old records.now answers.old (answer_number result) (record { panel = panel.new; answers = answers.new }) }
{
    let deep = good_depth(panel)?;
    let count = records.len() / 8;
    if answers.len() < count {
        return Err(Refusal::NoRoom);
    }
    if records.len() % 8 != 0 {
        return Err(Refusal::BytesLeft);
    }
    in_turn(
        records,
        panel,
        &mut answers[..count],
        &mut Some(deep),
        Kind::Split as u8,
        Kind::Merge as u8,
    );
    Ok(())
}
