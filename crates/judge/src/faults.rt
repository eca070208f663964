// The judge's faults as faults of the core, so that `?` carries them up unchanged.
ghost use Rattle.std.specs.Prelude.{◌≡◌};
ghost use Rattle.judge.specs.Judged.{fault_of};

use super::bounds::JudgeFault;
use row::{Fault, Layer, Refusal};

// The layer is `judge`; number and place are those of the definition.
impl From<JudgeFault> for Fault {
    ghost from_gives = { λ f r. r ≡ fault_of f };

    fn from(fault: JudgeFault) -> Fault {
        let (refusal, place) = match fault {
            JudgeFault::TooManyRows(count) => (Refusal::TooManyRows, count),
            JudgeFault::NoRows => (Refusal::WrongCount, 0),
            JudgeFault::OutsideLimits => (Refusal::OutsideLimits, 0),
            JudgeFault::NormalBound(row) => (Refusal::NormalBound, row),
            JudgeFault::MixedBound(row) => (Refusal::MixedBound, row),
            JudgeFault::LongBound(row) => (Refusal::LongBound, row),
        };
        Fault {
            refusal,
            layer: Layer::Judge,
            place,
        }
    }
}
