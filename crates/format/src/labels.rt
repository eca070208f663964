// Which bytes make a label.
ghost use Rattle.std.specs.Prelude.{◌≡◌};
ghost use Rattle.format.specs.Reading.{printable, all_printable, good_label};

fn is_printable(byte: u8) -> bool
    ensures { result ≡ printable byte }
{
    (0x20..=0x7e).contains(&byte)
}

fn all_printable(bytes: &[u8]) -> bool
    ensures { result ≡ all_printable bytes.now }
{
    bytes.iter().all(|byte| is_printable(*byte))
}

// A label of printable bytes, not empty, directly behind a row.
pub fn good_label(bytes: &[u8], after_row: bool) -> bool
    ensures { result ≡ good_label bytes.now after_row }
{
    after_row && !bytes.is_empty() && all_printable(bytes)
}
