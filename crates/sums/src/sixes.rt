// The six rows of sums over 64 leaf bits, each row in one number.
ghost use Rattle.std.specs.Prelude.{◌/◌, ◌≤◌};
ghost use Rattle.bits.specs.inner.Abreast.{Halves, Narrow, Joined, Packed};
ghost use Rattle.sums.specs.inner.Rows.{SixOver};

// A row's words, side by side: 32 of two bits, 16 of three, and so on to one of seven.
#[derive(Clone, Copy, PartialEq, Eq)]
pub struct SixRows {
    pub twos: u64,
    pub fours: u64,
    pub eights: u64,
    pub sixteens: u64,
    pub halves: u64,
    pub all: u64,
}

// Words of w bits two by two: the first, and the second `shift` places up, in words of twice the width.
fn join(x: u64, mask: u64, w: u32, shift: u32) -> u64
    requires { Halves w mask × (shift ≤ w) }
    ensures { Joined (32 / w) w shift x result }
{
    (x & mask) + (((x >> w) & mask) << shift)
}

// Two words of 32 bits, of which only the first w are used, put side by side without the others. One function for these four, a loop over
// the masks with the width as a const parameter, unrolls, but shares less with the sums: testing them takes a seventh longer.
fn pack_two(x: u64, w: u32) -> u64
    requires { (w ≤ 32) × Narrow 2 32 w x }
    ensures { Packed 2 32 w x result }
{
    join(x, 0x0000_0000_ffff_ffff, 32, w)
}

// Four of 16 bits.
fn pack_four(x: u64, w: u32) -> u64
    requires { (w ≤ 16) × Narrow 4 16 w x }
    ensures { Packed 4 16 w x result }
{
    pack_two(join(x, 0x0000_ffff_0000_ffff, 16, w), 2 * w)
}

// Eight of 8 bits.
fn pack_eight(x: u64, w: u32) -> u64
    requires { (w ≤ 8) × Narrow 8 8 w x }
    ensures { Packed 8 8 w x result }
{
    pack_four(join(x, 0x00ff_00ff_00ff_00ff, 8, w), 2 * w)
}

// Sixteen of 4 bits.
fn pack_sixteen(x: u64, w: u32) -> u64
    requires { (w ≤ 4) × Narrow 16 4 w x }
    ensures { Packed 16 4 w x result }
{
    pack_eight(join(x, 0x0f0f_0f0f_0f0f_0f0f, 4, w), 2 * w)
}

// Each row's sums are made in words of twice the width of those below, and then packed.
pub fn six_rows(x: u64) -> SixRows
    ensures { SixOver x result.twos result.fours result.eights result.sixteens result.halves result.all }
{
    let a = join(x, 0x5555_5555_5555_5555, 1, 0);
    let b = join(a, 0x3333_3333_3333_3333, 2, 0);
    let c = join(b, 0x0f0f_0f0f_0f0f_0f0f, 4, 0);
    let d = join(c, 0x00ff_00ff_00ff_00ff, 8, 0);
    let e = join(d, 0x0000_ffff_0000_ffff, 16, 0);
    SixRows {
        twos: a,
        fours: pack_sixteen(b, 3),
        eights: pack_eight(c, 4),
        sixteens: pack_four(d, 5),
        halves: pack_two(e, 6),
        all: join(e, 0x0000_0000_ffff_ffff, 32, 0),
    }
}
