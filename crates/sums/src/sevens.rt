// The seven sums over eight leaf bits, in one number: four words of two bits, then two of three bits, then one of four.
ghost use Rattle.std.specs.Prelude.{◌<◌};
ghost use Rattle.sums.specs.inner.Rows.{Sevens};

// What the first four leaf bits add to it: for bits n, with sums a and b of two each, a + 4 b + (256 + 16384) (a + b).
const FIRST: [u32; 16] = [
    0, 16641, 16641, 33282, 16644, 33285, 33285, 49926, 16644, 33285, 33285, 49926, 33288, 49929,
    49929, 66570,
];
// What the last four add: 16 (a + 4 b) + (8 * 256 + 16384) (a + b).
const LAST: [u32; 16] = [
    0, 18448, 18448, 36896, 18496, 36944, 36944, 55392, 18496, 36944, 36944, 55392, 36992, 55440,
    55440, 73888,
];

pub fn seven(x: u32) -> u32
    requires { x < 256 }
    ensures { Sevens x result }
{
    FIRST[(x % 16) as usize] + LAST[(x / 16) as usize]
}
