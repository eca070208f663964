// A turn: what begin hands out and report takes back.
ghost use Rattle.std.specs.Prelude.{◌≡◌};

use super::faults::SessionFault;
use law::TurnNumbers;

// Only a session makes one, and nobody can copy it or let it go: it is reported once.
pub struct Turn {
    pub(crate) numbers: TurnNumbers,
}

// A report that was refused: why, and the turn, which is still to be reported.
pub struct NotReported {
    pub fault: SessionFault,
    pub turn: Turn,
}

impl Turn {
    // What the turn tells: session number, clock, row and block.
    pub fn numbers(&self) -> TurnNumbers
        ensures { result ≡ self.now.numbers }
    {
        self.numbers
    }
}
