//! Words that belong to no object.

ghost use Rattle.std.specs.Prelude.{◌≡◌, ◌+◌, ◌≤◌, length};
ghost use Rattle.object_walk.specs.Fillers.{with_fillers};

use heap_terms::PAGE_WORDS;
use word_space::Space;

/// What stands below a page's fill in words that belong to no object. It is no header, and no
/// value of an object. The number is this project's own.
pub const FILLER_WORD: u64 = 0x41;

/// Writes n filler words from an index on. Every other word stays.
pub fn fill(space: &mut Space, from: u32, n: u32)
    requires inside { from + n ≤ length space.old }
    ensures words { space.new ≡ with_fillers space.old from n }
    ensures len { length space.new ≡ length space.old }
{
    prove!(n <= PAGE_WORDS * space.pages());
    for index in from..from + n {
        space.write(index, FILLER_WORD);
    }
}
