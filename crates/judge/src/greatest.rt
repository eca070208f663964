// The greatest value over the instants at which the mode may turn abnormal.
ghost use Rattle.std.specs.Prelude.{ℕ, ◌<◌, ◌≤◌};
ghost use Rattle.judge.specs.Bounds.{GreatestAnswer};

// The greatest of the values at the instants below `instants`, or none where one of them has no value.
// A `try_fold` would hold the same test in a closure.
pub(crate) fn greatest<F: Fn(u32) -> Option<u32>>(instants: u32, value: F) -> Option<u32>
    requires some { 1 ≤ instants }
    requires callable { (s : ℕ) → s < instants → F.pre value s }
    ensures { GreatestAnswer instants (F.post value) result }
{
    let mut greatest = 0;
    for instant in 0..instants {
        greatest = greatest.max(value(instant)?);
    }
    Some(greatest)
}
