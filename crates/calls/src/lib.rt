// What the calls are given and answer: the kind of a change, why a call is turned back, and the figures of a change.
#![tactic(auto)]

ghost use Rattle.std.specs.Prelude.{◌≡◌};
ghost use Rattle.calls.specs.Terms.{Decodes, code_of, line_of, number_of};

// "The change code is neither 1 (add) nor 2 (drop)": what the two codes stand for.
#[derive(Clone, Copy, PartialEq, Eq)]
pub enum Kind {
    Add,
    Drop,
}

// Why a call is turned back, in the order of their numbers. A text that does not fit has the first line that doesn't.
#[derive(Clone, Copy, PartialEq, Eq)]
pub enum Refusal {
    RackLength,
    TextLength,
    SpaceLength,
    Line(usize),
    Boards,
    Unsound,
    Code,
    NoBoard,
    SameBoard,
    Linked,
    NotLinked,
    Words,
    Setting,
}

// "growth g from 2 to 8" and "top level t from 0 to 3", if they are in their ranges.
#[derive(Clone, Copy, PartialEq, Eq)]
pub struct Settings {
    pub growth: u32,
    pub top: u32,
}

// "The short form of making gives 4 and 3"
pub const SHORT: Settings = Settings { growth: 4, top: 3 };

// "A change answers 0, its draws, its falls (moves down by one level) and the pairs then held."
#[derive(Clone, Copy, PartialEq, Eq)]
pub struct Figures {
    pub draws: u64,
    pub falls: u32,
    pub pairs: u32,
}

impl Refusal {
    // The line that it names: 0 where it names none.
    pub fn line(self) -> usize
        ensures { result ≡ line_of self }
    {
        match self {
            Refusal::Line(line) => line,
            _ => 0,
        }
    }
}

impl TryFrom<u32> for Kind {
    type Error = Refusal;

    ghost try_from_gives = { Decodes };

    fn try_from(code: u32) -> Result<Self, Refusal> {
        match code {
            1 => Ok(Kind::Add),
            2 => Ok(Kind::Drop),
            _ => Err(Refusal::Code),
        }
    }
}

impl From<Kind> for u32 {
    ghost from_gives = { λ kind code. code ≡ code_of kind };

    fn from(kind: Kind) -> u32 {
        match kind {
            Kind::Add => 1,
            Kind::Drop => 2,
        }
    }
}

impl From<Refusal> for u32 {
    ghost from_gives = { λ why number. number ≡ number_of why };

    fn from(why: Refusal) -> u32 {
        match why {
            Refusal::RackLength => 1,
            Refusal::TextLength => 2,
            Refusal::SpaceLength => 3,
            Refusal::Line(_) => 4,
            Refusal::Boards => 5,
            Refusal::Unsound => 6,
            Refusal::Code => 7,
            Refusal::NoBoard => 8,
            Refusal::SameBoard => 9,
            Refusal::Linked => 10,
            Refusal::NotLinked => 11,
            Refusal::Words => 12,
            Refusal::Setting => 13,
        }
    }
}
