//! Removing a pair. Those behind it close up.

ghost use Rattle.std.specs.Prelude.{◌≡◌, ◌+◌, ◌*◌, ◌<◌, ◌≤◌, ℕ, List, length};
ghost use Rattle.eq_index.specs.Answers.{Removes, without};
ghost use Rattle.eq_index.specs.Closing.{ClosesUp};
ghost use Rattle.eq_index.specs.Tables.{Becomes, HasTable, IsTable, PairWords, most_words};

use crate::tables::{COUNT, PAIRS, count, slot_of};
use word_space::Space;

/// The word of the value Unbound, which stands where there is no pair.
const UNBOUND: u64 = 0x51;

/// Removes the pair with a key from the table at an index, and says whether there was one.
pub fn remove(space: &mut Space, table: u32, key: u64) -> bool
    requires { HasTable space.old table }
    ensures { (b : ℕ) (pairs : List PairWords) → IsTable space.old table b pairs →
        (after : List PairWords) × Removes pairs key result after × Becomes space.old space.new table b after }
{
    match slot_of(space, table, key) {
        Some(slot) => {
            remove_at(space, table, slot);
            true
        }
        None => false,
    }
}

/// Removes the pair of a number.
pub fn remove_at(space: &mut Space, table: u32, slot: u32)
    requires table { HasTable space.old table }
    requires there { (b : ℕ) (pairs : List PairWords) → IsTable space.old table b pairs → slot < length pairs }
    ensures { (b : ℕ) (pairs : List PairWords) → IsTable space.old table b pairs → Becomes space.old space.new table b (without pairs slot) }
{
    let last = count(space, table) - 1;
    let behind = table + PAIRS + 2 * last;
    close_up(space, table + PAIRS + 2 * slot, behind);
    space.write(behind, UNBOUND);
    space.write(behind + 1, UNBOUND);
    space.write(table + COUNT, 2 * u64::from(last));
}

/// Puts into each word from `from` on up to `to` the word two behind it.
fn close_up(space: &mut Space, from: u32, to: u32)
    requires order { from ≤ to }
    requires within { to + 2 ≤ length space.old }
    requires low { to + 2 ≤ most_words }
    ensures { ClosesUp space.old from to space.new }
{
    for index in from..to {
        let word = space.read(index + 2);
        space.write(index, word);
    }
}
