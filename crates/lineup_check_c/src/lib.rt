// The check call for a host in C or in Rust: the static library's only export.
#![tactic(auto)]

ghost use Rattle.std.specs.Prelude.{ℕ, ◌≤◌, List, length};
ghost use Rattle.lineup_check.specs.Listing.{Listing, Written, OneListing};

// Writes the listing of a line-up to the front of the output and answers its length,
// or answers 0 and leaves the output as it was where the listing does not fit.
#[unsafe(no_mangle)]
pub extern "C" fn check_lineup(input: &[u8], output: &mut [u8]) -> usize
    ensures listed { (text : List ℕ) × Listing input.now text × Written text output.old output.new result }
    ensures bound { result ≤ length output.new }
    ensures single { OneListing }
{
    lineup_check::check_lineup(input, output)
}
