// Making every sum right, from the leaf bits up: from depth 6 on the six lowest rows 64 leaf bits at a time, before it the three lowest
// rows eight leaf bits at a time; the others word by word.
#![tactic(auto)]

ghost use Rattle.std.specs.Prelude.{◌+◌, ◌-◌, ◌*◌, ◌^◌, ◌≤◌, ◌<◌, length};
ghost use Rattle.words.specs.inner.Working.{Room};
ghost use Rattle.sums.specs.inner.Summed.{Summed};
ghost use Rattle.sums.specs.inner.Rows.{Made, SevenMade};

// Makes the three lowest rows, the highest of m words, over the eight leaf bits from bit 8 i on. The leaf bits are the last m bytes of
// 4 m, and the row above them fills the m bytes before.
fn make_seven(bytes: &mut [u8], m: usize, i: usize)
    requires { (4 * m ≤ length bytes.old) × (m ≤ 16384) × (i < m) }
    ensures { SevenMade m i bytes.old bytes.new }
{
    let s = sums::sevens::seven(bits::get_bytes::<1>(bytes, 3 * m + i) as u32);
    bits::put_bytes::<1>(bytes, 2 * m + i, u64::from(s % 256));
    fields::put_field(bytes, 10 * m + 6 * i, 6, s / 256 % 64);
    fields::put_field(bytes, 6 * m + 4 * i, 4, s / 16384);
}

// Rows deep - 3 to deep - 1. A function of this loop and of that in `making_six` would take the turn as a closure, and say of it all that
// `SevenMade` and `SixMade` say: it is longer than both.
fn make_lowest_three(bytes: &mut [u8], deep: usize)
    requires { Room deep bytes.old }
    ensures { Made deep (2 ^ (deep - 3)) (2 ^ deep) bytes.old bytes.new }
{
    let m: usize = 1 << (deep - 3);
    for i in 0..m {
        make_seven(bytes, m, i);
    }
}

// Row d: the next word starts at bit p, its children's at bit c.
fn make_row(bytes: &mut [u8], deep: usize, d: usize)
    requires { Room deep bytes.old × (d < deep) }
    ensures { Made deep (2 ^ d) (2 ^ (d + 1)) bytes.old bytes.new }
{
    let w = deep - d;
    let mut p = words::row_start(deep, d);
    let mut c = words::row_start(deep, d + 1);
    for _ in 1usize << d..2 << d {
        let x = fields::get_field(bytes, c, w);
        let y = fields::get_field(bytes, c + w, w);
        fields::put_field(bytes, p, w + 1, x + y);
        p += w + 1;
        c += 2 * w;
    }
}

// The rows before row end, the last of them first.
fn make_high_rows(bytes: &mut [u8], deep: usize, end: usize)
    requires { Room deep bytes.old × (end ≤ deep) }
    ensures { Made deep 1 (2 ^ end) bytes.old bytes.new }
{
    for d in (0..end).rev() {
        make_row(bytes, deep, d);
    }
}

// Makes every sum right, and changes nothing but sums.
pub fn make_sums(bytes: &mut [u8], deep: usize)
    requires { Room deep bytes.old }
    ensures { Summed deep bytes.old bytes.new }
{
    if deep < 6 {
        make_lowest_three(bytes, deep);
        make_high_rows(bytes, deep, deep - 3);
    } else {
        making_six::make_lowest_six(bytes, deep);
        make_high_rows(bytes, deep, deep - 6);
    }
}
