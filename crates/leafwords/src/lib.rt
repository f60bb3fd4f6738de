// What the bits of one leaf word ask of each other. The leaf word below node q, six levels above depth D, names q in its bit 32, q's
// children in bits 16 and 48, and so on to its odd bits. Its bit 0, but for that of the first word, names a node higher up.
#![tactic(auto)]

ghost use Rattle.std.specs.Prelude.{◌*◌, ◌/◌, ◌≤◌, ◌<◌};
ghost use Rattle.tables.specs.inner.Says.{Says};
ghost use Rattle.bits.specs.inner.Abreast.{Ones};
ghost use Rattle.leafwords.specs.inner.LeafWord.{Under, Same, Beside, ParentsBeside, InnerSame, TopSame, Crossed, Mirrored};

// Whether in each word of v bits of x bit a is set only where bit b is. The mask has the first bit of each word.
fn under(x: u64, mask: u64, v: u32, a: u32, b: u32) -> bool
    requires { Ones v mask × (a < 64) × (b < 64) }
    ensures { Says (Under (64 / v) v a b x) result }
{
    let y = (x >> a) & mask;
    y & ((x >> b) & mask) == y
}

// Whether bit a is set where bit b is, and only there.
fn same(x: u64, mask: u64, v: u32, a: u32, b: u32) -> bool
    requires { Ones v mask × (a < 64) × (b < 64) }
    ensures { Says (Same (64 / v) v a b x) result }
{
    (x >> a) & mask == (x >> b) & mask
}

// Whether each of the bits s and 3 s, in words of 4 s bits, is set only beside its parent's, bit 2 s.
fn beside(x: u64, mask: u64, s: u32) -> bool
    requires { Ones (4 * s) mask × (s ≤ 16) }
    ensures { Says (Beside (64 / (4 * s)) s x) result }
{
    under(x, mask, 4 * s, s, 2 * s) && under(x, mask, 4 * s, 3 * s, 2 * s)
}

// Whether each cut below q that b names has its parent's bit set beside it.
#[tactic(auto, using(crate::proofs::Masks::masks))]
pub fn parents_beside(b: u64) -> bool
    ensures { Says (ParentsBeside b) result }
{
    beside(b, 0x1111_1111_1111_1111, 1)
        && beside(b, 0x0101_0101_0101_0101, 2)
        && beside(b, 0x0001_0001_0001_0001, 4)
        && beside(b, 0x0000_0001_0000_0001, 8)
        && beside(b, 1, 16)
}

// Whether of two nodes that stand across from each other below a node below q both are cut or none.
#[tactic(auto, using(crate::proofs::Masks::masks))]
pub fn inner_same(b: u64) -> bool
    ensures { Says (InnerSame b) result }
{
    same(b, 0x0101_0101_0101_0101, 8, 3, 5)
        && same(b, 0x0001_0001_0001_0001, 16, 6, 10)
        && same(b, 0x0000_0001_0000_0001, 32, 12, 20)
        && same(b, 0x0000_0001_0000_0001, 32, 9, 23)
        && same(b, 0x0000_0001_0000_0001, 32, 15, 17)
}

// Whether of two that stand so below q itself both are cut or none.
#[tactic(auto, using(crate::proofs::Masks::masks))]
pub fn top_same(b: u64) -> bool
    ensures { Says (TopSame b) result }
{
    same(b, 1, 64, 24, 40) && same(b, 1, 64, 18, 46) && same(b, 1, 64, 30, 34)
}

// Whether bit a of w is set only where bit c of x is, and bit c of w only where bit a of x is.
fn crossed(w: u64, x: u64, a: u32, c: u32) -> bool
    requires { (a < 64) × (c < 64) }
    ensures { Says (Crossed w x a c) result }
{
    (w >> a) % 2 <= (x >> c) % 2 && (w >> c) % 2 <= (x >> a) % 2
}

// Whether x, the leaf word below the edge neighbour e of m, has what w, the word below m, asks for across m's long side: m asks for e, 4m
// for 4e + 3, 4m + 3 for 4e, 16m for 16e + 15, and so on.
pub fn mirrored(w: u64, x: u64, s: u32) -> bool
    requires { s ≤ 2 }
    ensures { Says (Mirrored s w x) result }
{
    crossed(w, x, 16 * s, 16 * s)
        && crossed(w, x, 4 * s, 28 * s)
        && crossed(w, x, s, 31 * s)
        && crossed(w, x, 7 * s, 25 * s)
}
