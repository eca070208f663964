// Faults of a session, and how they go up: refusal and place stay, the layer is added.
ghost use Rattle.std.specs.Prelude.{◌≡◌, cond, Ok, Err};
ghost use Rattle.session.specs.Faults.{fault_in};

use row::{Fault, Layer, Refusal};

// Why a call was refused, and its place: the clock or a row. A type of its own, since with it goes the layer.
#[derive(Clone, Copy, Debug, PartialEq, Eq)]
pub struct SessionFault {
    pub refusal: Refusal,
    pub place: u32,
}

// The layer is `session`.
impl From<SessionFault> for Fault {
    ghost from_gives = { λ e r. r ≡ fault_in e };

    fn from(e: SessionFault) -> Fault {
        Fault {
            refusal: e.refusal,
            layer: Layer::Session,
            place: e.place as u64,
        }
    }
}

// One check of a call: refuses if it applies.
pub(crate) fn refuse_if(applies: bool, refusal: Refusal, place: u32) -> Result<(), SessionFault>
    ensures { result ≡ cond applies (Err (record { refusal = refusal; place = place })) (Ok tt) }
{
    if applies {
        Err(SessionFault { refusal, place })
    } else {
        Ok(())
    }
}
