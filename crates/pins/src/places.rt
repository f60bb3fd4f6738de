// A pin and its place, which is that of its leaf's own leaf bit.
ghost use Rattle.std.specs.Prelude.{◌≡◌, ◌^◌, ◌≤◌, ◌<◌};
ghost use Rattle.nodes.specs.Depth.{depth_of};
ghost use Rattle.cuts.specs.Cuts.{place_of};
ghost use Rattle.pins.specs.Pins.{pin_bit};
ghost use Rattle.pins.specs.inner.Steps.{put_pin, PinRoom};

use nodes::Node;

// The place of the leaf bit that node k sets where it is a leaf.
pub fn leaf_place(deep: usize, k: Node) -> usize
    requires { (deep ≤ 17) × (1 ≤ k.0) × (depth_of k.0 ≤ deep) }
    ensures { (result ≡ place_of deep k.0) × (result < 2 ^ deep) }
{
    let d = nodes::depth(k) as usize;
    ((k.0 as usize) << (deep - d)) - (1usize << deep)
}

// Pin p: 0 or 1.
pub fn pin(bytes: &[u8], deep: usize, p: usize) -> u8
    requires { PinRoom deep bytes.now × (p < 2 ^ deep) }
    ensures { result ≡ pin_bit deep bytes.now p }
{
    bits::get_bit(bytes, (4usize << deep) + p)
}

// Sets pin p to v, 0 or 1.
pub fn put_pin(bytes: &mut [u8], deep: usize, p: usize, v: u8)
    requires { PinRoom deep bytes.old × (p < 2 ^ deep) × (v < 2) }
    ensures { bytes.new ≡ put_pin deep bytes.old p v }
{
    bits::put_bit(bytes, (4usize << deep) + p, v);
}
