// The writer's state.
ghost use Rattle.std.specs.Prelude.{◌≤◌, length};

use format::Place;

// Writes a line-up to the caller's buffer, one record behind the other.
#[derive(Drop)]
pub struct Writer<'a> {
    pub(crate) buffer: &'a mut [u8],
    // behind the last record
    pub(crate) place: Place,
    ghost within: { place.at ≤ length buffer.now },
    ghost few: { place.rows ≤ 32 },
}
