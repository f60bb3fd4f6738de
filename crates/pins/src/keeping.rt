// Keeping the pins that lie on leaf bits, eight at a time.
ghost use Rattle.std.specs.Prelude.{◌+◌, ◌*◌, ◌<◌};
ghost use Rattle.pins.specs.inner.Steps.{PinRoom, PinsInBytes, ClearedBetween, PinsCleared};

// Clears the pins of byte j that lie on no leaf bit, where the leaf bits fill n bytes, and the pins the n behind them.
fn keep_byte(bytes: &mut [u8], deep: usize, n: usize, j: usize)
    requires { PinsInBytes deep n bytes.old × (j < n) }
    ensures { ClearedBetween deep (8 * j) (8 * (j + 1)) bytes.old bytes.new }
{
    let leaves = bits::get_bytes::<1>(bytes, 3 * n + j);
    let pins = bits::get_bytes::<1>(bytes, 4 * n + j);
    bits::put_bytes::<1>(bytes, 4 * n + j, pins & leaves);
}

// Clears every pin that lies on no leaf bit, eight at a time. The leaf bytes are counted by a division: of a bound that is itself a shifted 1
// the compiler makes a shift at each turn, and takes byte by byte, not many at once.
pub fn keep_on_leaves(bytes: &mut [u8], deep: usize)
    requires { PinRoom deep bytes.old }
    ensures { PinsCleared deep bytes.old bytes.new }
{
    let n = (1usize << deep) / 8;
    for j in 0..n {
        keep_byte(bytes, deep, n, j);
    }
}
