// Testing all sums: from depth 6 on the six lowest rows 64 leaf bits at a time, before it the three lowest rows eight leaf bits at a
// time; the others word by word.
#![tactic(auto)]

ghost use Rattle.std.specs.Prelude.{◌+◌, ◌-◌, ◌*◌, ◌^◌, ◌≤◌, ◌<◌, length};
ghost use Rattle.tables.specs.inner.Says.{Says};
ghost use Rattle.words.specs.inner.Working.{Room};
ghost use Rattle.sums.specs.Sums.{SumsRight, Right};
ghost use Rattle.sums.specs.inner.Rows.{SumsBetween, SevenAt};

// Whether the three lowest rows, the highest of m words, are right over the eight leaf bits from bit 8 i on. The leaf bits are the last
// m bytes of 4 m, and the row above them fills the m bytes before.
fn seven_right(bytes: &[u8], m: usize, i: usize) -> bool
    requires { (4 * m ≤ length bytes.now) × (m ≤ 16384) × (i < m) }
    ensures { Says (SevenAt m bytes.now i) result }
{
    let s = sums::sevens::seven(bits::get_bytes::<1>(bytes, 3 * m + i) as u32);
    let y = bits::get_bytes::<1>(bytes, 2 * m + i) as u32;
    let z = fields::get_field(bytes, 10 * m + 6 * i, 6);
    let u = fields::get_field(bytes, 6 * m + 4 * i, 4);
    s == y + 256 * z + 16384 * u
}

// Rows deep - 3 to deep - 1.
fn lowest_three(bytes: &[u8], deep: usize) -> bool
    requires { Room deep bytes.now }
    ensures { Says (SumsBetween deep bytes.now (2 ^ (deep - 3)) (2 ^ deep)) result }
{
    let m: usize = 1 << (deep - 3);
    (0..m).all(|i| seven_right(bytes, m, i))
}

// Row d: the next word starts at bit p, its children's at bit c. Where both are computed from the word's number, all tests together take a
// sixth longer.
fn row(bytes: &[u8], deep: usize, d: usize) -> bool
    requires { Room deep bytes.now × (d < deep) }
    ensures { Says (SumsBetween deep bytes.now (2 ^ d) (2 ^ (d + 1))) result }
{
    let w = deep - d;
    let mut p = words::row_start(deep, d);
    let mut c = words::row_start(deep, d + 1);
    for _ in 1usize << d..2 << d {
        let x = fields::get_field(bytes, c, w);
        let y = fields::get_field(bytes, c + w, w);
        if fields::get_field(bytes, p, w + 1) != x + y {
            return false;
        }
        p += w + 1;
        c += 2 * w;
    }
    true
}

// The rows before row end.
fn high_rows(bytes: &[u8], deep: usize, end: usize) -> bool
    requires { Room deep bytes.now × (end ≤ deep) }
    ensures { Says (SumsBetween deep bytes.now 1 (2 ^ end)) result }
{
    (0..end).all(|d| row(bytes, deep, d))
}

// Whether every word from 1 up, above depth deep, is the sum of its two children's words.
pub fn sums_right(bytes: &[u8], deep: usize) -> bool
    requires { Room deep bytes.now }
    ensures { Says (SumsRight deep bytes.now) result }
{
    if deep < 6 {
        lowest_three(bytes, deep) && high_rows(bytes, deep, deep - 3)
    } else {
        testing_six::lowest_six(bytes, deep) && high_rows(bytes, deep, deep - 6)
    }
}

// Whether bits 0 and 1 are zero, word 0 holds deep, and every sum is right.
pub fn all_right(bytes: &[u8], deep: usize) -> bool
    requires { Room deep bytes.now }
    ensures { Says (Right deep bytes.now) result }
{
    // word 0 with the two bits before it
    let head = fields::get_field(bytes, 0, deep + 3) as usize;
    head == 4 * deep && sums_right(bytes, deep)
}
