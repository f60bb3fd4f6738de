// One leaf bit changed, and the sums along its path to node 1 brought up to date.
ghost use Rattle.std.specs.Prelude.{◌≡◌, ◌+◌, ◌-◌, ◌*◌, ◌/◌, ◌^◌, ◌≤◌, ◌<◌, length};
ghost use Rattle.bits.specs.Bits.{field};
ghost use Rattle.bits.specs.inner.Puts.{put_field};
ghost use Rattle.words.specs.inner.Working.{put_leaf_bit, Room};
ghost use Rattle.sums.specs.Sums.{SumsRight};
ghost use Rattle.sums.specs.inner.Summed.{Summed};

// The least depth from which on the four bytes from a sum's first on lie inside, whichever sum it is.
const ROOMY: usize = 5;

// Adds up to the sum in the w bits from bit s on, and takes down from it. Which way is settled by the depth, so that a path has no test of it.
fn move_sum(bytes: &mut [u8], deep: usize, s: usize, w: usize, up: u32, down: u32)
    requires { (4 ≤ length bytes.old) × (s + w ≤ 8 * length bytes.old) × (5 ≤ deep → s / 8 + 4 ≤ length bytes.old) × (0 < w) × (w ≤ 25) × (field bytes.old s w + up < 2 ^ w) × (down ≤ field bytes.old s w + up) }
    ensures { bytes.new ≡ put_field bytes.old s w (field bytes.old s w + up - down) }
{
    if deep < ROOMY {
        let v = fields::get_field(bytes, s, w);
        fields::put_field(bytes, s, w, v + up - down);
        return;
    }
    fields::move_field(bytes, s, w, up, down);
}

// Sets leaf bit p to v, 0 or 1, under right sums, and leaves them right. Only where the bit changes is anything written, and only it and
// the words above it: each gains or loses one. On the way up node k's word has w bits from bit top + k * w on. The loop counts w itself: of a
// `for` over the widths the compiler makes more than it puts in line at each call, and a merge takes up to an eighth longer.
pub fn put_leaf(bytes: &mut [u8], deep: usize, p: usize, v: u8)
    requires { Room deep bytes.old × SumsRight deep bytes.old × (p < 2 ^ deep) × (v < 2) }
    ensures { Summed deep (put_leaf_bit deep bytes.old p v) bytes.new }
{
    let old = words::leaf_bit(bytes, deep, p);
    if old == v {
        return;
    }
    words::put_leaf_bit(bytes, deep, p, v);
    let mut k = (1usize << deep) + p;
    let mut top: usize = 2 << deep;
    let mut w: usize = 1;
    loop {
        k /= 2;
        top /= 2;
        w += 1;
        move_sum(bytes, deep, top + k * w, w, v as u32, old as u32);
        if k == 1 {
            return;
        }
    }
}
