// Words and leaf bits of a tree of sums in lent bytes.
#![tactic(auto)]

ghost use Rattle.std.specs.Prelude.{◌≡◌, ◌+◌, ◌-◌, ◌*◌, ◌^◌, ◌≤◌, ◌<◌, take, drop};
ghost use Rattle.nodes.specs.Depth.{depth_of};
ghost use Rattle.words.specs.Words.{width, start, word, leaf_bit};
ghost use Rattle.words.specs.inner.Working.{put_word, put_leaf_bit, Room};

// Where word k lies: the bit at which it starts, and how many bits it has. Word 0 is as deep as word 1.
fn slot(deep: usize, k: usize) -> (usize, usize)
    requires { (deep ≤ 17) × (k < 2 ^ (deep + 1)) }
    ensures start { result.0 ≡ start deep (depth_of k) k }
    ensures width { result.1 ≡ width deep (depth_of k) }
{
    let d = nodes::depth(nodes::Node(k.max(1) as u32)) as usize;
    let w = deep + 1 - d;
    ((2usize << d) + k * w, w)
}

// Where row d starts: the first bit of word 2^d.
pub fn row_start(deep: usize, d: usize) -> usize
    requires { (d ≤ deep) × (deep ≤ 17) }
    ensures { result ≡ start deep d (2 ^ d) }
{
    (deep + 3 - d) << d
}

// Word k.
pub fn get_word(bytes: &[u8], deep: usize, k: usize) -> u32
    requires { Room deep bytes.now × (k < 2 ^ (deep + 1)) }
    ensures { result ≡ word deep bytes.now k }
{
    let (start, width) = slot(deep, k);
    fields::get_field(bytes, start, width)
}

// Sets word k to v, which fits it.
pub fn put_word(bytes: &mut [u8], deep: usize, k: usize, v: u32)
    requires { Room deep bytes.old × (k < 2 ^ (deep + 1)) × (v < 2 ^ width deep (depth_of k)) }
    ensures { bytes.new ≡ put_word deep bytes.old k v }
{
    let (start, width) = slot(deep, k);
    fields::put_field(bytes, start, width, v);
}

// Leaf bit p: 0 or 1.
#[tactic(auto, using(crate::proofs::Rooms::bounds), unfolding(crate::specs::Words::leaf_bit))]
pub fn leaf_bit(bytes: &[u8], deep: usize, p: usize) -> u8
    requires { Room deep bytes.now × (p < 2 ^ deep) }
    ensures { result ≡ leaf_bit deep bytes.now p }
{
    bits::get_bit(bytes, (3usize << deep) + p)
}

// Sets leaf bit p to v, 0 or 1; the sums stay as they are.
#[tactic(auto, using(crate::proofs::Rooms::bounds), unfolding(crate::specs::inner::Working::put_leaf_bit))]
pub fn put_leaf_bit(bytes: &mut [u8], deep: usize, p: usize, v: u8)
    requires { Room deep bytes.old × (p < 2 ^ deep) × (v < 2) }
    ensures { bytes.new ≡ put_leaf_bit deep bytes.old p v }
{
    bits::put_bit(bytes, (3usize << deep) + p, v);
}

// The bytes that the leaf bits fill, as a part of those lent.
#[tactic(auto, using(crate::proofs::Rooms::bounds))]
pub fn leaf_part(bytes: &[u8], deep: usize) -> &[u8]
    requires { Room deep bytes.now }
    ensures { result.now ≡ take (2 ^ (deep - 3)) (drop (3 * 2 ^ (deep - 3)) bytes.now) }
{
    let first = 3usize << (deep - 3);
    let end = 4usize << (deep - 3);
    &bytes[first..end]
}
