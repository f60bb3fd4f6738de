// The neighbour across the long side, without a way down to it.
ghost use Rattle.std.specs.Prelude.{◌≡◌, ◌≤◌, ◌<◌, ◌^◌};
ghost use Rattle.nodes.specs.Neighbours.{edge};

use crate::numbers::{Node, depth};

// The edge neighbour of n, or 0: none, as in the numbers that go out. (`e == 0 || ..` says as much as a match on an Option.)
// Two levels make a pair of digits. A pair 01 or 10 has its neighbour beside itself; a pair 00 or 11 has it, mirrored, below the
// neighbour of the node two levels up. So the digits up to the lowest mixed pair, g digits up, are turned round. Where no pair
// above the first digits is mixed, the other half of the panel holds it, or the border.
pub fn edge_of(n: Node) -> u32
    requires { (2 ≤ n.0) × (n.0 < 2 ^ 18) }
    ensures { result ≡ edge n.0 }
{
    let k = n.0;
    let d = depth(n);
    let g = ((k ^ (k / 2)) & 0x5555_5555).trailing_zeros();
    if g + 3 <= d {
        let turned = 4u32 << g;
        let low = k % turned;
        return (k - low) + (turned - 1 - low);
    }
    if d % 2 == 1 {
        return (3u32 << d) - 1 - k;
    }
    0
}
