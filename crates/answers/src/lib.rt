// What a call answers: what it hands out, or why it is refused, and the customer's number of each refusal.
#![tactic(auto)]

ghost use Rattle.std.specs.Prelude.{◌≡◌};
ghost use Rattle.answers.specs.Refusals.{refusal_number, refusal_ancestor, answer_number, answer_ancestor};

use nodes::Node;

// Why a call is refused, in the order of the customer's numbers: 1 to 11, and 16 to 18. A node that lies below a leaf is refused with that leaf.
#[derive(Clone, Copy)]
pub enum Refusal {
    WrongLength,
    NotGood,
    NoSuchNode,
    IsCut,
    AtGreatestDepth,
    AtDepthOne,
    LeavesMissing,
    NoSuchNumber,
    BadRecord,
    BelowLeaf(Node),
    LeafPinned,
    NoRoom,
    BytesLeft,
    PanelInUse,
}

impl From<Refusal> for u32 {
    ghost from_gives = { λ e n. n ≡ refusal_number e };

    fn from(e: Refusal) -> u32 {
        match e {
            Refusal::WrongLength => 1,
            Refusal::NotGood => 2,
            Refusal::NoSuchNode => 3,
            Refusal::IsCut => 4,
            Refusal::AtGreatestDepth => 5,
            Refusal::AtDepthOne => 6,
            Refusal::LeavesMissing => 7,
            Refusal::NoSuchNumber => 8,
            Refusal::BadRecord => 9,
            Refusal::BelowLeaf(_) => 10,
            Refusal::LeafPinned => 11,
            Refusal::NoRoom => 16,
            Refusal::BytesLeft => 17,
            Refusal::PanelInUse => 18,
        }
    }
}

impl Refusal {
    // The ancestor that is returned beside it.
    pub fn ancestor(self) -> u32
        ensures { result ≡ refusal_ancestor self }
    {
        match self {
            Refusal::BelowLeaf(k) => k.0,
            _ => 0,
        }
    }
}

// The number of an answer: 0 where the call is done.
pub fn number<T: Copy>(answer: Result<T, Refusal>) -> u32
    ensures { result ≡ answer_number answer }
{
    match answer {
        Ok(_) => 0,
        Err(e) => u32::from(e),
    }
}

// The ancestor that is returned beside an answer.
pub fn ancestor<T: Copy>(answer: Result<T, Refusal>) -> u32
    ensures { result ≡ answer_ancestor answer }
{
    match answer {
        Ok(_) => 0,
        Err(e) => e.ancestor(),
    }
}
