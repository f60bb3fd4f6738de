// Runs of request records on a lent buffer.
#![tactic(auto)]

ghost use Rattle.std.specs.Prelude.{◌≤◌, min, length};
ghost use Rattle.records.specs.Records.{most_records};
ghost use Rattle.steps.specs.Holding.{depth_or_0, Keeps};
ghost use Rattle.requests.specs.Requests.{Part};

use records::{Kind, count_after};
use turns::in_turn;

// What a run has come to: how many records it has answered, and the depth of the panel that is open after them, if one is.
#[derive(Clone, Copy)]
pub struct Ran {
    pub count: usize,
    pub deep: Option<usize>,
}

// Goes on with a run: works through the records of a part of its input in turn, on panels at the start of the buffer, and writes a byte for
// each answer behind those of the parts before. It answers as many records as there are up to the limit, or as many as the answers have
// room for. `ends` says that the input ends with this part; before the first part a run has come to no records and no panel.
pub fn run(part: &[u8], ends: bool, buffer: &mut [u8], answers: &mut [u8], ran: &mut Ran)
    requires { Keeps ran.old.deep buffer.old × (ran.old.count ≤ min most_records (length answers.old)) }
    ensures part { Part part.now ends ran.old.count (depth_or_0 ran.old.deep) buffer.old answers.old ran.new.count (depth_or_0 ran.new.deep) buffer.new answers.new }
    ensures keeps { Keeps ran.new.deep buffer.new }
{
    let first = ran.count;
    let count = count_after(first, part, ends).min(answers.len());
    in_turn(
        part,
        buffer,
        &mut answers[first..count],
        &mut ran.deep,
        Kind::Open as u8,
        Kind::Unpin as u8,
    );
    ran.count = count;
}
