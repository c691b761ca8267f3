// Why a call is turned away: the rows of 01's table, and 02's three of a table of classes.
ghost use Rattle.std.specs.Prelude.{◌≡◌};
ghost use Rattle.model.specs.declared.Answer.TheVariants.{Refused};
ghost use Rattle.frame.specs.Refusal.{number_of, with_zeros};

use model::Answer;

#[derive(Clone, Copy)]
pub enum Refusal {
    Stage,
    AnchorLength,
    Unformatted,
    Sizes,
    Length,
    Tail,
    Malformed,
    OutOfRange,
    NotOpen,
    ValueLength,
    Held,
    TableFull,
    Spent,
    NoRoom,
    OutOfTurn,
    ClassLine,
    NotCovered,
    CoveredTwice,
}

impl Refusal {
    // Its number in the table.
    pub fn number(self) -> u64
        ensures { result ≡ number_of self }
    {
        match self {
            Refusal::Stage => 1,
            Refusal::AnchorLength => 2,
            Refusal::Unformatted => 3,
            Refusal::Sizes => 4,
            Refusal::Length => 5,
            Refusal::Tail => 6,
            Refusal::Malformed => 7,
            Refusal::OutOfRange => 8,
            Refusal::NotOpen => 9,
            Refusal::ValueLength => 10,
            Refusal::Held => 11,
            Refusal::TableFull => 12,
            Refusal::Spent => 13,
            Refusal::NoRoom => 14,
            Refusal::OutOfTurn => 15,
            Refusal::ClassLine => 17,
            Refusal::NotCovered => 18,
            Refusal::CoveredTwice => 19,
        }
    }
}

// A refusal with the two values that its row returns.
#[derive(Clone, Copy)]
pub struct TurnedAway {
    pub refusal: Refusal,
    pub first: u64,
    pub second: u64,
}

impl TurnedAway {
    pub fn answer(self) -> Answer
        ensures { result ≡ Refused (number_of self.refusal) self.first self.second }
    {
        Answer::Refused {
            number: self.refusal.number(),
            first: self.first,
            second: self.second,
        }
    }
}

// Most rows return zeros.
impl From<Refusal> for TurnedAway {
    ghost from_gives = { λ refusal away. away ≡ with_zeros refusal };

    fn from(refusal: Refusal) -> TurnedAway {
        TurnedAway {
            refusal,
            first: 0,
            second: 0,
        }
    }
}
