// Whether every pin lies on a leaf bit, eight at a time.
ghost use Rattle.std.specs.Prelude.{◌≡◌, ◌-◌, ◌^◌, ◌<◌};
ghost use Rattle.tables.specs.inner.Says.{Says};
ghost use Rattle.pins.specs.Pins.{PinsOnLeaves};
ghost use Rattle.pins.specs.inner.Steps.{PinRoom, ByteOnLeaves};

// Whether the pins of byte j lie on leaf bits, where the leaf bits fill n bytes, and the pins the n behind them.
fn byte_on_leaves(bytes: &[u8], deep: usize, n: usize, j: usize) -> bool
    requires { PinRoom deep bytes.now × (n ≡ 2 ^ (deep - 3)) × (j < n) }
    ensures { Says (ByteOnLeaves deep bytes.now j) result }
{
    let leaves = bits::get_bytes::<1>(bytes, 3 * n + j);
    let pins = bits::get_bytes::<1>(bytes, 4 * n + j);
    pins & leaves == pins
}

// Whether no pin bit is set where no leaf bit is. It looks at every byte: without a jump out, the compiler tests many at once
// (and by a division, as `keep_on_leaves` says).
pub fn pins_on_leaves(bytes: &[u8], deep: usize) -> bool
    requires { PinRoom deep bytes.now }
    ensures { Says (PinsOnLeaves deep bytes.now) result }
{
    let n = (1usize << deep) / 8;
    let mut on = true;
    for j in 0..n {
        on &= byte_on_leaves(bytes, deep, n, j);
    }
    on
}
