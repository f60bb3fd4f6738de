// The length of a panel.
ghost use Rattle.std.specs.Prelude.{◌≡◌, ◌≤◌};
ghost use Rattle.panel.specs.Panels.{size_of};

// The bytes of a panel of the greatest depth: `size` of it, where a constant is asked for.
pub const GREATEST_SIZE: usize = (5 << nodes::GREATEST_DEPTH) / 8;

// The bytes of a panel of this depth, four parts of words and one of pins. For depth 0 there are none.
pub fn size(deep: usize) -> usize
    requires { deep ≤ 17 }
    ensures { result ≡ size_of deep }
{
    (5usize << deep) / 8
}
