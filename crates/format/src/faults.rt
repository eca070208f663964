// Faults of the reader and the writer on their way up: number and place stay, the layer is added.
ghost use Rattle.std.specs.Prelude.{◌≡◌};
ghost use Rattle.format.specs.Records.{fault_of, write_fault_of};

use super::records::{ReadFault, WriteFault};
use row::{Fault, Layer};

// The layer is `reader`, the place the offset of the record.
impl From<ReadFault> for Fault {
    ghost from_gives = { λ e r. r ≡ fault_of e };

    fn from(e: ReadFault) -> Fault {
        Fault {
            refusal: e.refusal,
            layer: Layer::Reader,
            place: e.offset as u64,
        }
    }
}

// The layer is `writer`.
impl From<WriteFault> for Fault {
    ghost from_gives = { λ e r. r ≡ write_fault_of e };

    fn from(e: WriteFault) -> Fault {
        Fault {
            refusal: e.refusal,
            layer: Layer::Writer,
            place: e.place as u64,
        }
    }
}
