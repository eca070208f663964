// Faults: what a call that refuses says. A fault passes through every layer above unchanged.
ghost use Rattle.std.specs.Prelude.{◌≡◌, Some};
ghost use Rattle.row.specs.Faults.{number_of, word_of, fault_text};

use std::fmt;

// Why a call refused. Its number is the one that the outside knows it by.
#[derive(Clone, Copy, Debug, PartialEq, Eq)]
pub enum Refusal {
    UnknownKind = 1,
    InputEnds = 2,
    FillingNotZero = 3,
    BadLabel = 4,
    OutsideLimits = 5,
    TooManyRows = 6,
    WrongCount = 7,
    AfterEnd = 8,
    NoRoom = 9,
    NormalBound = 10,
    MixedBound = 11,
    LongBound = 12,
    TurnOpen = 13,
    ClockFull = 14,
    NotInPlan = 15,
    AbnormalHelper = 16,
    TooEarly = 17,
    HelperInAbnormalMode = 18,
    JobNotEnded = 19,
    NoFreeBlock = 20,
    NotOpenTurn = 21,
    IdleFinished = 22,
}

// The part of the core that refused.
#[derive(Clone, Copy, Debug, PartialEq, Eq)]
pub enum Layer {
    Reader,
    Writer,
    Judge,
    Session,
}

// A refusal, the layer it comes from, and its place: an offset, a length, a row, a count or a clock.
#[derive(Clone, Copy, Debug, PartialEq, Eq)]
pub struct Fault {
    pub refusal: Refusal,
    pub layer: Layer,
    pub place: u64,
}

impl Refusal {
    // The number by which the outside knows the refusal.
    pub fn number(&self) -> u8
        ensures { result ≡ number_of self.now }
    {
        *self as u8
    }
}

impl Layer {
    // The word by which the outside knows the layer.
    pub fn word(&self) -> &'static str
        ensures { result.now ≡ word_of self.now }
    {
        match *self {
            Layer::Reader => "reader",
            Layer::Writer => "writer",
            Layer::Judge => "judge",
            Layer::Session => "session",
        }
    }
}

impl fmt::Display for Layer {
    ghost output = { λ layer. Some (word_of layer) };

    fn fmt<W: fmt::Write>(&self, f: &mut fmt::Formatter<W>) -> fmt::Result {
        f.write_str(self.word())
    }
}

// The words of a refusal, as every listing and every tool prints them.
impl fmt::Display for Fault {
    ghost output = { λ fault. Some (fault_text fault) };

    fn fmt<W: fmt::Write>(&self, f: &mut fmt::Formatter<W>) -> fmt::Result {
        let number = self.refusal.number();
        let layer = self.layer;
        let place = self.place;
        write!(f, "refused {number} {layer} {place}")
    }
}
