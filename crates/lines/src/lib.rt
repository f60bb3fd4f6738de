// The text of a printed line.
#![tactic(auto)]

ghost use Rattle.std.specs.Prelude.{◌≡◌, ◌++◌, ◌+◌, ◌≤◌, length, take};
ghost use Rattle.lines.specs.inner.Adding.{longest, Added};

// The longest line: two numbers of 20 digits, a space and a line feed.
pub const LONGEST: usize = 42;

// Puts part behind the first at bytes of out, and tells how many bytes that makes. Any lent bytes may be asked for, and any place in them: the
// two are no struct.
fn put(out: &mut [u8], at: usize, part: &[u8]) -> usize
    requires { at + length part.now ≤ length out.old }
    ensures value { result ≡ at + length part.now }
    ensures out_after { take result out.new ≡ take at out.old ++ part.now }
{
    let end = at + part.len();
    out[at..end].copy_from_slice(part);
    end
}

// Puts the line of two numbers behind the first at bytes of out, and tells how many bytes that makes.
pub fn add(out: &mut [u8], at: usize, a: u64, b: u64) -> usize
    requires { at + longest ≤ length out.old }
    ensures { (result ≤ at + longest) × Added a b (take at out.old) (take result out.new) }
{
    let mut first = [0u8; 20];
    let mut second = [0u8; 20];
    let m = io::decimal(a, &mut first);
    let n = io::decimal(b, &mut second);
    let at = put(out, at, &first[..m]);
    let at = put(out, at, b" ");
    let at = put(out, at, &second[..n]);
    put(out, at, b"\n")
}
