// Panels of depth 3 to 6, whose leaf bits fit one number. A panel of depth D has the same cuts as the one of depth 6 whose leaf bit
// 2^(6-D) p is its leaf bit p, and whose other leaf bits are 0: one level deeper, a node's bit is twice as far.
ghost use Rattle.std.specs.Prelude.{◌≡◌, ◌-◌, ◌*◌, ◌^◌, ◌≤◌, ◌<◌};
ghost use Rattle.bits.specs.Bits.{digit, field};
ghost use Rattle.tables.specs.inner.Says.{Says};
ghost use Rattle.words.specs.Words.{leaf_bit};
ghost use Rattle.words.specs.inner.Working.{Room};
ghost use Rattle.bits.specs.inner.Abreast.{abreast};
ghost use Rattle.cuts.specs.inner.Steps.{AllFollow};
ghost use Rattle.leafwords.specs.inner.LeafWord.{RootFollows};

use leafwords::{inner_same, mirrored, parents_beside};

// The leaf bits of a panel of depth up to 6, as one number. They end at byte 2^(D-1), and the bytes before them hold sums.
fn leaves_of(bytes: &[u8], deep: usize) -> u64
    requires { Room deep bytes.now × (deep ≤ 6) }
    ensures { result ≡ field bytes.now (3 * 2 ^ deep) (2 ^ deep) }
{
    if deep == 3 {
        return bits::get_bytes::<1>(bytes, 3);
    }
    bits::get_bytes::<8>(bytes, (1usize << (deep - 1)) - 8) >> (64 - (1usize << deep))
}

// The 2^deep bits of x, each the first of 2^(6-deep). Each turn halves the words of w bits, and moves the upper halves on to the middle
// of their lanes; `ones` has the first bit of each lane set.
fn spread(x: u64, deep: usize) -> u64
    requires { (deep ≤ 6) × (x < 2 ^ (2 ^ deep)) }
    ensures { result ≡ abreast (2 ^ deep) (2 ^ (6 - deep)) (digit x) }
{
    let mut w = 1usize << deep;
    let mut lane: usize = 64;
    let mut ones: u64 = 1;
    let mut y = x;
    while 1 < w {
        w /= 2;
        lane /= 2;
        let mask = ones * ((1u64 << w) - 1);
        y = (y & mask) + (((y >> w) & mask) << lane);
        ones += ones << lane;
    }
    y
}

// Whether b, the leaf word below node 1, has what its parts ask of each other.
fn root_follows(b: u64) -> bool
    ensures { Says (RootFollows b) result }
{
    parents_beside(b) && inner_same(b) && mirrored(b, b >> 32, 1) && mirrored(b >> 32, b, 1)
}

// Whether all nodes that are cut may be. Where node 1 alone is cut, nothing is asked.
pub fn shallow_follow(bytes: &[u8], deep: usize) -> bool
    requires { Room deep bytes.now × (deep ≤ 6) }
    ensures { Says (AllFollow deep (leaf_bit deep bytes.now)) result }
{
    let x = leaves_of(bytes, deep);
    if x / 2 == 1u64 << ((1usize << (deep - 1)) - 1) {
        return true;
    }
    root_follows(spread(x, deep))
}
