// Bits, bytes and numbers of several bytes in lent bytes.
#![tactic(auto)]

ghost use Rattle.std.specs.Prelude.{◌≡◌, ◌+◌, ◌*◌, ◌/◌, ◌%◌, ◌^◌, ◌≤◌, ◌<◌, length};
ghost use Rattle.bits.specs.Bits.{bit, field};
ghost use Rattle.bits.specs.inner.Puts.{put_bit, put_field};

// Bit p of the bytes: 0 or 1.
pub fn get_bit(bytes: &[u8], p: usize) -> u8
    requires { p / 8 < length bytes.now }
    ensures { result ≡ bit bytes.now p }
{
    (bytes[p / 8] >> (p % 8)) % 2
}

// Sets bit p of the bytes to v.
pub fn put_bit(bytes: &mut [u8], p: usize, v: u8)
    requires { (p / 8 < length bytes.old) × (v < 2) }
    ensures { bytes.new ≡ put_bit bytes.old p v }
{
    let i = p / 8;
    let k = p % 8;
    let b = bytes[i];
    let old = (b >> k) % 2;
    bytes[i] = b - (old << k) + (v << k);
}

// The N bytes from i on as a number, the lowest first: the field of their bits.
pub fn get_bytes<const N: usize>(bytes: &[u8], i: usize) -> u64
    requires { (N ≤ 8) × (i + N ≤ length bytes.now) }
    ensures value { result ≡ field bytes.now (8 * i) (8 * N) }
    ensures fits { result < 2 ^ (8 * N) }
{
    let mut word = [0; 8];
    word[..N].copy_from_slice(&bytes[i..i + N]);
    u64::from_le_bytes(word)
}

// Sets the N bytes from i on to the lowest N of the number v, the lowest first: the field of their bits.
pub fn put_bytes<const N: usize>(bytes: &mut [u8], i: usize, v: u64)
    requires { (N ≤ 8) × (i + N ≤ length bytes.old) }
    ensures { bytes.new ≡ put_field bytes.old (8 * i) (8 * N) v }
{
    bytes[i..i + N].copy_from_slice(&v.to_le_bytes()[..N]);
}
