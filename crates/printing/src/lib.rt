// What the program prints: the lines of a run, collected in blocks.
#![tactic(auto)]

ghost use Rattle.std.specs.Prelude.{◌≡◌, ◌≤◌, ◌<◌, length, take};
ghost use Rattle.io.specs.Counts.{IsPrefixLen};
ghost use Rattle.lines.specs.inner.Adding.{longest};
ghost use Rattle.steps.specs.Holding.{depth_or_0};
ghost use Rattle.printing.specs.Printing.{line_count, Numbers, Lines};
ghost use Rattle.printing.specs.inner.Showing.{Shown};

use nodes::LeafNumber;
use panel::size;

// The bytes of a block.
pub const BLOCK: usize = 8192;

// A block that is filled: the line that comes after it, and its bytes.
#[derive(Clone, Copy)]
pub struct Filled {
    pub upto: usize,
    pub size: usize,
}

// What a run came to: its answers, and the buffer at whose start the panel of some depth is open, if one is. That it can be shown is no ghost
// field: such a field is a fact of which all proofs are equal, and a good panel's aren't known to be.
#[derive(Clone, Copy)]
pub struct Run<'a> {
    pub answers: &'a [u8],
    pub buffer: &'a [u8],
    pub deep: Option<usize>,
}

impl Run<'_> {
    // How many lines there are: one for each answer, and one for each leaf if a panel is open.
    pub fn line_count(&self) -> usize
        requires { Shown self.now.answers.now self.now.deep self.now.buffer.now }
        ensures { result ≡ line_count self.now.answers.now (depth_or_0 self.now.deep) self.now.buffer.now }
    {
        self.answers.len() + steps::leaf_count(self.buffer, self.deep) as usize
    }

    // The two numbers of line j: a record's number from 1 and its answer, and behind all those a leaf's number and its node.
    fn numbers(&self, j: usize) -> (u64, u64)
        requires { Shown self.now.answers.now self.now.deep self.now.buffer.now × (j < line_count self.now.answers.now (depth_or_0 self.now.deep) self.now.buffer.now) }
        ensures { Numbers self.now.answers.now (depth_or_0 self.now.deep) self.now.buffer.now j result.0 result.1 }
    {
        if j < self.answers.len() {
            return (j as u64 + 1, u64::from(self.answers[j]));
        }
        let Some(deep) = self.deep else {
            unreachable!();
        };
        let i = (j - self.answers.len()) as u32;
        let k = leaves::leaf_at(&self.buffer[..size(deep)], deep, LeafNumber(i));
        (u64::from(i), u64::from(k.0))
    }

    // Collects lines from the given one on, as many as are left or are sure to fit, at the start of the block.
    pub fn fill(&self, from: usize, block: &mut [u8]) -> Filled
        requires { Shown self.now.answers.now self.now.deep self.now.buffer.now × (from < line_count self.now.answers.now (depth_or_0 self.now.deep) self.now.buffer.now) × (longest ≤ length block.old) }
        ensures lines { Lines self.now.answers.now (depth_or_0 self.now.deep) self.now.buffer.now from result.upto (take result.size block.new) }
        ensures from_lt_upto { (from < result.upto) × (result.upto ≤ line_count self.now.answers.now (depth_or_0 self.now.deep) self.now.buffer.now) × IsPrefixLen result.size block.new }
    {
        let n = self.line_count();
        let mut size = 0;
        for j in from..n {
            if block.len() < size + lines::LONGEST {
                return Filled { upto: j, size };
            }
            let (x, y) = self.numbers(j);
            size = lines::add(block, size, x, y);
        }
        Filled { upto: n, size }
    }
}
