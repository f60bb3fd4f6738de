// The deepest level, 32 leaf bits at a time, from depth 6 on. The leaf word below node m, five levels above depth deep, has the bits of the
// sixteen nodes four levels below m in its odd places, and between two of these the bit of their parent.
ghost use Rattle.std.specs.Prelude.{◌≡◌, ◌+◌, ◌-◌, ◌*◌, ◌%◌, ◌^◌, ◌≤◌, ◌<◌};
ghost use Rattle.nodes.specs.Depth.{depth_of};
ghost use Rattle.words.specs.Words.{leaf_bit};
ghost use Rattle.words.specs.inner.Working.{Room};
ghost use Rattle.cuts.specs.Cuts.{Cut};
ghost use Rattle.cuts.specs.inner.Closing.{CutsDrawn};
ghost use Rattle.closing.specs.inner.Wordwise.{Pulled, FarWord, WordDrawn};

use nodes::Node;

// b with each bit of `up` set where y's bit k places down is, and each bit of `down` where y's bit k places up is.
fn pull(b: u32, y: u32, k: u32, up: u32, down: u32) -> u32
    requires { (k < 32) × (up % 2 ^ k ≡ 0) }
    ensures { Pulled b y k up down result }
{
    b | ((y << k) & up) | ((y >> k) & down)
}

// The leaf word b with each odd bit set whose node is to be cut, and its parent's bit. The neighbours of the middle two of four nodes are each
// other; those of the outer two stand below the neighbour of the node two levels up: inside b, or in y, the word below m's neighbour.
fn drawn(b: u32, y: u32) -> u32
    ensures { WordDrawn b y result }
{
    let a = pull(b, b, 2, 0x2022_2020, 0x0808_8808);
    let a = pull(a, b, 14, 0x0080_0000, 0x0000_0200);
    let a = pull(a, y, 30, 0x8000_0000, 0x0000_0002);
    let a = pull(a, y, 18, 0x0200_0000, 0x0000_0080);
    pull(a, a, 1, 0x4444_4444, 0x4444_4444)
}

// Where the leaf word below m starts.
fn word_place(deep: usize, m: Node) -> usize
    requires { (deep ≤ 17) × (1 ≤ m.0) × (depth_of m.0 + 5 ≡ deep) }
    ensures { result ≡ 8 * 2 ^ (deep - 5) + 4 * m.0 }
{
    (1usize << (deep - 2)) + 4 * m.0 as usize
}

// The leaf word below the edge neighbour of m, or 0 where there is none.
fn far_word(bytes: &[u8], deep: usize, m: Node) -> u32
    requires { Room deep bytes.now × (2 ≤ m.0) × (depth_of m.0 + 5 ≡ deep) }
    ensures { FarWord (Cut deep (leaf_bit deep bytes.now)) m.0 result }
{
    let e = nodes::edge_of(m);
    if e == 0 {
        return 0;
    }
    bits::get_bytes::<4>(bytes, word_place(deep, Node(e))) as u32
}

// Draws the sixteen nodes four levels below m.
fn draw_word(bytes: &mut [u8], deep: usize, m: Node)
    requires { Room deep bytes.old × (2 ≤ m.0) × (depth_of m.0 + 5 ≡ deep) }
    ensures { CutsDrawn deep (16 * m.0) (16 * m.0 + 16) bytes.old bytes.new }
{
    let i = word_place(deep, m);
    let b = bits::get_bytes::<4>(bytes, i) as u32;
    let y = far_word(bytes, deep, m);
    bits::put_bytes::<4>(bytes, i, u64::from(drawn(b, y)));
}

// All nodes of depth d, which is deep - 1.
pub fn draw_words(bytes: &mut [u8], deep: usize, d: usize)
    requires { Room deep bytes.old × (6 ≤ deep) × (d + 1 ≡ deep) }
    ensures { CutsDrawn deep (2 ^ d) (2 ^ (d + 1)) bytes.old bytes.new }
{
    for m in (1u32 << (d - 4))..(2u32 << (d - 4)) {
        draw_word(bytes, deep, Node(m));
    }
}
