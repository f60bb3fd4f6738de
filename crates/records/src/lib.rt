// Request records: eight bytes each.
#![tactic(auto)]

ghost use Rattle.std.specs.Prelude.{◌≡◌, ◌*◌, ◌^◌, ◌≤◌, ◌<◌, min, length};
ghost use Rattle.tables.specs.inner.Says.{Says};
ghost use Rattle.records.specs.Records.{number, Fine, record_at, most_records, records_in, count_after};
ghost use Rattle.records.specs.inner.Kinds.{KindOf, Asked};

// The most records that a run works through, over all parts of its input.
pub const MOST_RECORDS: usize = 4096;

// The kinds of records, in the order of their numbers.
#[derive(Clone, Copy, PartialEq, Eq)]
pub enum Kind {
    Open,
    Split,
    Merge,
    Pin,
    Unpin,
}

impl TryFrom<u8> for Kind {
    type Error = ();

    ghost try_from_gives = { KindOf };

    fn try_from(byte: u8) -> Result<Self, ()> {
        match byte {
            0 => Ok(Kind::Open),
            1 => Ok(Kind::Split),
            2 => Ok(Kind::Merge),
            3 => Ok(Kind::Pin),
            4 => Ok(Kind::Unpin),
            _ => Err(()),
        }
    }
}

// What a record asks for: the call of this kind, with this depth or node.
#[derive(Clone, Copy)]
pub struct Request {
    pub kind: Kind,
    pub number: u32,
}

// Whether the record is whole, of a kind from `first` to `last`, and its spare bytes are zero. The two are numbers, so that any may be asked for.
// The kind is tested before the spare bytes: a round of other kinds takes two thirds of the time so.
pub fn fine(request: &[u8], first: u8, last: u8) -> bool
    ensures { Says (Fine first last request.now) result }
{
    match *request {
        [kind, a, b, c, _, _, _, _] => first <= kind && kind <= last && a == 0 && b == 0 && c == 0,
        _ => false,
    }
}

// The depth or node of a whole record: four bytes, lowest first.
#[tactic(auto, unfolding(bits::specs::Little::little))]
pub fn number_of(request: &[u8]) -> u32
    requires { length request.now ≡ 8 }
    ensures { result ≡ number request.now }
{
    u32::from_le_bytes([request[4], request[5], request[6], request[7]])
}

// What a record that is fine asks for.
pub fn read(request: &[u8], first: u8, last: u8) -> Option<Request>
    requires { last ≤ 4 }
    ensures { Asked first last request.now result }
{
    if !fine(request, first, last) {
        return None;
    }
    let kind = Kind::try_from(request[0]).unwrap();
    let number = number_of(request);
    Some(Request { kind, number })
}

// How many records a part holds: a tail is one more where the input ends with the part.
fn records_in(part: &[u8], ends: bool) -> usize
    ensures { (result ≡ records_in ends part.now) × (result < 2 ^ 62) }
{
    if ends {
        part.len().div_ceil(8)
    } else {
        part.len() / 8
    }
}

// How many records are answered after a part, n of them before it.
pub fn count_after(n: usize, part: &[u8], ends: bool) -> usize
    requires { n ≤ most_records }
    ensures { result ≡ count_after n ends part.now }
{
    MOST_RECORDS.min(n + records_in(part, ends))
}

// Record i: a tail is shorter than eight bytes.
pub fn record_at(records: &[u8], i: usize) -> &[u8]
    requires { 8 * i < length records.now }
    ensures { result.now ≡ record_at records.now i }
{
    let start = 8 * i;
    let end = records.len().min(start + 8);
    &records[start..end]
}
