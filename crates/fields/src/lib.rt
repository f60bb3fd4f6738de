// Fields of bits in lent bytes. One of any place goes through a window of four bytes that always lies inside: four bytes hold a field
// of up to 25 bits wherever in a byte it starts, fields to 24 bits and one bit to spare.
#![tactic(auto)]

ghost use Rattle.std.specs.Prelude.{◌≡◌, ◌+◌, ◌-◌, ◌*◌, ◌/◌, ◌^◌, ◌≤◌, ◌<◌, length};
ghost use Rattle.bits.specs.Bits.{field};
ghost use Rattle.bits.specs.inner.Puts.{put_field};
ghost use Rattle.fields.specs.inner.Windows.{Window};

// Where the window that holds the bits from s on starts.
fn place(len: usize, s: usize) -> usize
    requires { 4 ≤ len }
    ensures { Window len s result }
{
    (s / 8).min(len - 4)
}

// The number of w bits from bit s on, lowest first.
pub fn get_field(bytes: &[u8], s: usize, w: usize) -> u32
    requires { (4 ≤ length bytes.now) × (s + w ≤ 8 * length bytes.now) × (0 < w) × (w ≤ 25) }
    ensures { result ≡ field bytes.now s w }
{
    let i = place(bytes.len(), s);
    let n = bits::get_bytes::<4>(bytes, i) as u32;
    (n >> (s - 8 * i)) % (1u32 << w)
}

// Sets the w bits from bit s on to the number v, lowest first.
pub fn put_field(bytes: &mut [u8], s: usize, w: usize, v: u32)
    requires { (4 ≤ length bytes.old) × (s + w ≤ 8 * length bytes.old) × (0 < w) × (w ≤ 25) × (v < 2 ^ w) }
    ensures { bytes.new ≡ put_field bytes.old s w v }
{
    let i = place(bytes.len(), s);
    let k = s - 8 * i;
    let n = bits::get_bytes::<4>(bytes, i) as u32;
    let low = n % (1u32 << k);
    let high = n >> k >> w;
    bits::put_bytes::<4>(bytes, i, u64::from((((high << w) | v) << k) | low));
}

// Adds up to the number in the w bits from bit s on, and takes down from it, in the four bytes from the field's first on: these lie inside.
pub fn move_field(bytes: &mut [u8], s: usize, w: usize, up: u32, down: u32)
    requires { (s / 8 + 4 ≤ length bytes.old) × (0 < w) × (w ≤ 25) × (field bytes.old s w + up < 2 ^ w) × (down ≤ field bytes.old s w + up) }
    ensures { bytes.new ≡ put_field bytes.old s w (field bytes.old s w + up - down) }
{
    let i = s / 8;
    let k = s - 8 * i;
    let n = bits::get_bytes::<4>(bytes, i) as u32;
    bits::put_bytes::<4>(bytes, i, u64::from(n + (up << k) - (down << k)));
}
