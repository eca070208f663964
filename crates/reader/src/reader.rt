// The reader's state.
ghost use Rattle.std.specs.Prelude.{◌≤◌, length};

use format::Place;

// Reads a line-up one record at a time.
#[derive(Drop)]
pub struct Reader<'a> {
    pub(crate) input: &'a [u8],
    pub(crate) place: Place,
    ghost within: { place.at ≤ length input.now },
    ghost few: { place.rows ≤ 32 },
}
