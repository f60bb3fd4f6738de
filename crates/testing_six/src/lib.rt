// Testing the six lowest rows of sums, 64 leaf bits at a time.
#![tactic(auto)]

ghost use Rattle.std.specs.Prelude.{◌-◌, ◌*◌, ◌^◌, ◌≤◌, ◌<◌, length};
ghost use Rattle.tables.specs.inner.Says.{Says};
ghost use Rattle.words.specs.inner.Working.{Room};
ghost use Rattle.sums.specs.inner.Rows.{SumsBetween, SixAt};

use sums::sixes::SixRows;

// Whether the six lowest rows, the highest of m words, are right over the 64 leaf bits from bit 64 j on.
fn six_right(bytes: &[u8], m: usize, j: usize) -> bool
    requires { (32 * m ≤ length bytes.now) × (m ≤ 2048) × (j < m) }
    ensures { Says (SixAt m bytes.now j) result }
{
    let s = sums::sixes::six_rows(bits::get_bytes::<8>(bytes, 24 * m + 8 * j));
    s == SixRows {
        twos: bits::get_bytes::<8>(bytes, 16 * m + 8 * j),
        fours: bits::get_bytes::<6>(bytes, 10 * m + 6 * j),
        eights: bits::get_bytes::<4>(bytes, 6 * m + 4 * j),
        sixteens: fields::get_field(bytes, 28 * m + 20 * j, 20).into(),
        halves: fields::get_field(bytes, 16 * m + 12 * j, 12).into(),
        all: fields::get_field(bytes, 9 * m + 7 * j, 7).into(),
    }
}

// Rows deep - 6 to deep - 1.
pub fn lowest_six(bytes: &[u8], deep: usize) -> bool
    requires { Room deep bytes.now × (6 ≤ deep) }
    ensures { Says (SumsBetween deep bytes.now (2 ^ (deep - 6)) (2 ^ deep)) result }
{
    let m: usize = 1 << (deep - 6);
    (0..m).all(|j| six_right(bytes, m, j))
}
