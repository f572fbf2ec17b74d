// Why a call is refused; specs/Refusal.antt says which number is which.
ghost use Rattle.std.specs.Prelude.{◌≡◌, cond, Some, decimal};
ghost use Rattle.tables.specs.Refusal.{number, number_met};

use std::fmt;

// The value of each is its number.
#[derive(Clone, Copy, Debug, PartialEq, Eq)]
pub enum Refusal {
    VertexCount = 1,
    Length = 2,
    CornerTooHigh = 3,
    CornersEqual = 4,
    SideTwice = 5,
    SideAlone = 6,
    OuterMissing = 7,
    TurnIncomplete = 8,
    TargetWrong = 9,
    EdgeWrong = 10,
    AnchorRule = 11,
    TurnRule = 12,
    PathRule = 13,
    NoEdge = 14,
    NoVertex = 15,
    Torn = 16,
    NotFinite = 17,
    NoMesh = 18,
    TextTooLong = 19,
    NotAText = 20,
}

impl Refusal {
    pub fn number(self) -> u8
        ensures { result ≡ number self }
    {
        self as u8
    }
}

// It prints as its number in decimal.
impl fmt::Display for Refusal {
    ghost output = { λ refusal. Some (decimal (number refusal)) };

    fn fmt<W: fmt::Write>(&self, f: &mut fmt::Formatter<W>) -> fmt::Result {
        let number = self.number();
        write!(f, "{number}")
    }
}

// One rung of a ladder: `refuse_if(fault, refusal)?`.
pub fn refuse_if(fault: bool, refusal: Refusal) -> Result<(), Refusal>
    ensures { number_met result ≡ cond fault (number refusal) 0 }
{
    if fault { Err(refusal) } else { Ok(()) }
}
