// The scanner: reads request records from standard input, in parts, and works through each from what the part before left. Then it prints a line
// for each answer and, if a panel is open, a line for each of its leaves.
#![tactic(auto)]

ghost use Rattle.std.specs.Prelude.{◌≡◌, ◌≤◌, length, take};
ghost use Rattle.io.specs.Counts.{IsPrefixLen};
ghost use Rattle.records.specs.Records.{most_records};
ghost use Rattle.steps.specs.Holding.{depth_or_0, Keeps};
ghost use Rattle.requests.specs.Requests.{Ended};
ghost use Rattle.printing.specs.Printing.{line_count, Lines};

use printing::Run;
use records::MOST_RECORDS;
use requests::Ran;

// The files that a program starts with, by the numbers that the system gives them.
const STANDARD_INPUT: i32 = 0;

const STANDARD_OUTPUT: i32 = 1;

// The bytes of a part: 512 records.
const PART: usize = 8 * 512;

// The bytes of the buffer for the panel. One of depth 16 has room in it, and one of depth 17 does not.
const BUFFER: usize = 65536;

// Reads the input part by part, to its end or to the limit of records, and works through it.
fn scan(buffer: &mut [u8], answers: &mut [u8]) -> Ran
    requires { most_records ≤ length answers.old }
    ensures ended { Ended (take result.count answers.new) (depth_or_0 result.deep) buffer.new }
    ensures keeps { Keeps result.deep buffer.new }
    ensures prefix_len { IsPrefixLen result.count answers.new }
{
    let mut input = [0u8; PART];
    let mut ran = Ran {
        count: 0,
        deep: None,
    };
    // Nothing is counted here: a part that isn't full, or the limit, ends it.
    while ran.count < MOST_RECORDS {
        let got = io::read_full(STANDARD_INPUT, &mut input);
        requests::run(&input[..got], got < PART, buffer, answers, &mut ran);
        if got < PART {
            return ran;
        }
    }
    ran
}

// Hands a block to standard output, where as many lines as `done` says were handed out before: its text is that of the next lines up to another, whole,
// in order, and nothing else. The run is lent for that to be said.
fn hand_out(run: &Run, done: &mut usize, upto: usize, text: &[u8])
    requires { Lines run.now.answers.now (depth_or_0 run.now.deep) run.now.buffer.now done.old upto text.now }
    ensures { done.new ≡ upto }
{
    io::write_all(STANDARD_OUTPUT, text);
    *done = upto;
}

// Prints what a run came to, a block at a time, and tells how many lines it has handed out.
fn print(run: &Run) -> usize
    requires { Ended run.now.answers.now (depth_or_0 run.now.deep) run.now.buffer.now × Keeps run.now.deep run.now.buffer.now }
    ensures { result ≡ line_count run.now.answers.now (depth_or_0 run.now.deep) run.now.buffer.now }
{
    let n = run.line_count();
    let mut block = [0u8; printing::BLOCK];
    let mut done: usize = 0;
    while done < n {
        let filled = run.fill(done, &mut block);
        hand_out(run, &mut done, filled.upto, &block[..filled.size]);
    }
    done
}

fn main() {
    let mut buffer = [0u8; BUFFER];
    let mut answers = [0u8; MOST_RECORDS];
    let ran = scan(&mut buffer, &mut answers);
    let count = ran.count;
    let run = Run {
        answers: &answers[..count],
        buffer: &buffer,
        deep: ran.deep,
    };
    print(&run);
}
