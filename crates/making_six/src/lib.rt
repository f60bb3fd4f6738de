// Making the six lowest rows of sums, 64 leaf bits at a time.
#![tactic(auto)]

ghost use Rattle.std.specs.Prelude.{◌-◌, ◌*◌, ◌^◌, ◌≤◌, ◌<◌, length};
ghost use Rattle.words.specs.inner.Working.{Room};
ghost use Rattle.sums.specs.inner.Rows.{Made, SixMade};

// Makes the six lowest rows, the highest of m words, over the 64 leaf bits from bit 64 j on.
fn make_six(bytes: &mut [u8], m: usize, j: usize)
    requires { (32 * m ≤ length bytes.old) × (m ≤ 2048) × (j < m) }
    ensures { SixMade m j bytes.old bytes.new }
{
    let s = sums::sixes::six_rows(bits::get_bytes::<8>(bytes, 24 * m + 8 * j));
    bits::put_bytes::<8>(bytes, 16 * m + 8 * j, s.twos);
    bits::put_bytes::<6>(bytes, 10 * m + 6 * j, s.fours);
    bits::put_bytes::<4>(bytes, 6 * m + 4 * j, s.eights);
    fields::put_field(bytes, 28 * m + 20 * j, 20, s.sixteens as u32);
    fields::put_field(bytes, 16 * m + 12 * j, 12, s.halves as u32);
    fields::put_field(bytes, 9 * m + 7 * j, 7, s.all as u32);
}

// Rows deep - 6 to deep - 1.
pub fn make_lowest_six(bytes: &mut [u8], deep: usize)
    requires { Room deep bytes.old × (6 ≤ deep) }
    ensures { Made deep (2 ^ (deep - 6)) (2 ^ deep) bytes.old bytes.new }
{
    let m: usize = 1 << (deep - 6);
    for j in 0..m {
        make_six(bytes, m, j);
    }
}
