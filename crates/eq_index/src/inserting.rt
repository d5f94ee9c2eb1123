//! Inserting a pair.

ghost use Rattle.std.specs.Prelude.{◌≡◌, ◌+◌, ◌*◌, ◌<◌, ℕ, List, [], ◌∷◌, ◌++◌, length, slice_set};
ghost use Rattle.eq_index.specs.Answers.{Finds, HasNo, Inserts};
ghost use Rattle.eq_index.specs.Tables.{Becomes, HasTable, IsTable, PairWords};

use crate::tables::{COUNT, PAIRS, capacity, count, slot_of};
use word_space::Space;

/// What inserting a pair did.
#[derive(Clone, Copy, Debug, PartialEq, Eq)]
pub enum Inserted {
    /// No pair had the key: the pair was added last.
    Added,
    /// The pair took the place of the one with its key.
    Replaced,
    /// No pair has the key, and there is no room for another. Nothing changed.
    Full,
}

/// Inserts a pair into the table at an index: in the place of the pair with its key, else last.
/// `Full` exactly where the key is absent and the table has as many pairs as it has room for.
pub fn insert(space: &mut Space, table: u32, key: u64, value: u64) -> Inserted
    requires { HasTable space.old table }
    ensures { (b : ℕ) (pairs : List PairWords) → IsTable space.old table b pairs →
        (after : List PairWords) × Inserts b pairs (record { key = key; value = value }) result after × Becomes space.old space.new table b after }
{
    match slot_of(space, table, key) {
        Some(slot) => {
            space.write(table + PAIRS + 2 * slot + 1, value);
            Inserted::Replaced
        }
        None => insert_last(space, table, key, value),
    }
}

/// Inserts a pair whose key is absent, where there is room for it.
fn insert_last(space: &mut Space, table: u32, key: u64, value: u64) -> Inserted
    requires table { HasTable space.old table }
    requires absent { (b : ℕ) (pairs : List PairWords) → IsTable space.old table b pairs → HasNo pairs key }
    ensures { (b : ℕ) (pairs : List PairWords) → IsTable space.old table b pairs →
        (after : List PairWords) × Inserts b pairs (record { key = key; value = value }) result after × Becomes space.old space.new table b after }
{
    let count = count(space, table);
    if count == capacity(space, table) {
        return Inserted::Full;
    }
    add(space, table, count, key, value);
    Inserted::Added
}

/// Adds a pair behind the pairs that are there.
fn add(space: &mut Space, table: u32, count: u32, key: u64, value: u64)
    requires table { HasTable space.old table }
    requires room { (b : ℕ) (pairs : List PairWords) → IsTable space.old table b pairs → (count ≡ length pairs) × (count < b) × HasNo pairs key }
    ensures { (b : ℕ) (pairs : List PairWords) → IsTable space.old table b pairs →
        Becomes space.old space.new table b (pairs ++ record { key = key; value = value } ∷ []) }
{
    let at = table + PAIRS + 2 * count;
    space.write(at, key);
    space.write(at + 1, value);
    space.write(table + COUNT, 2 * u64::from(count + 1));
}
