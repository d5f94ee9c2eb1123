//! Where a table keeps what, and how a pair is found.

ghost use Rattle.std.specs.Prelude.{◌≡◌, ◌≢◌, ◌+◌, ◌*◌, ◌<◌, ◌≤◌, ◌==◌, ℕ, List, length, slice_index, IfSome, IsNone};
ghost use Rattle.eq_index.specs.Answers.{Finds, LooksUp};
ghost use Rattle.eq_index.specs.Tables.{Becomes, HasTable, IsTable, PairWords};

use lisp_words::read_header;
use word_space::Space;

/// Where a table's flag stands, in words behind its first.
const FLAG: u32 = 2;

/// Where its number of pairs stands.
pub(crate) const COUNT: u32 = 3;

/// Where its first pair stands: the key, and behind it the value.
pub(crate) const PAIRS: u32 = 4;

/// The word of the flag where a look-up needs a rehash before it: fixnum 1.
const STALE: u64 = 2;

/// How many pairs the table at an index has.
#[inline(always)]
pub fn count(space: &Space, table: u32) -> u32
    requires { HasTable space.now table }
    ensures { (b : ℕ) (pairs : List PairWords) → IsTable space.now table b pairs → result ≡ length pairs }
{
    // A fixnum is twice its number.
    (space.read(table + COUNT) / 2) as u32
}

/// How many pairs it has room for.
pub(crate) fn capacity(space: &Space, table: u32) -> u32
    requires { HasTable space.now table }
    ensures { (b : ℕ) (pairs : List PairWords) → IsTable space.now table b pairs → result ≡ b }
{
    match read_header(space.read(table)) {
        // Three words, and four for each pair.
        Some((_, n)) => (n - 3) / 4,
        None => unreachable!(),
    }
}

/// The number of the pair with a key, looked for from the first pair on.
#[inline(always)]
pub(crate) fn slot_of(space: &Space, table: u32, key: u64) -> Option<u32>
    requires { HasTable space.now table }
    ensures { (b : ℕ) (pairs : List PairWords) → IsTable space.now table b pairs → Finds pairs key result }
{
    let count = count(space, table);
    match space.window(table + PAIRS, 2 * count) {
        Some(words) => slot_in(words, count, key),
        None => slot_read(space, table, key),
    }
}

/// The number of the first of so many pairs with a key, of which the words stand one after the other.
fn slot_in(words: &[u64], count: u32, key: u64) -> Option<u32>
    requires { 2 * count ≤ length words.now }
    ensures found { IfSome result (λ k. (k < count) × (slice_index words.now (2 * k) ≡ key)) }
    ensures none { IsNone result → (k : ℕ) → k < count → slice_index words.now (2 * k) ≢ key }
{
    for slot in 0..count {
        if words[2 * slot as usize] == key {
            return Some(slot);
        }
    }
    None
}

/// The same as `slot_of`, word by word, where the words do not stand in one piece.
#[cold]
#[inline(never)]
fn slot_read(space: &Space, table: u32, key: u64) -> Option<u32>
    requires { HasTable space.now table }
    ensures { (b : ℕ) (pairs : List PairWords) → IsTable space.now table b pairs → Finds pairs key result }
{
    for slot in 0..count(space, table) {
        if space.read(table + PAIRS + 2 * slot) == key {
            return Some(slot);
        }
    }
    None
}

/// The number of the pair with a key in the table at an index; `None` exactly where no pair has it.
/// The pairs stay as they are, and so does every word outside the table.
pub fn find(space: &mut Space, table: u32, key: u64) -> Option<u32>
    requires { HasTable space.old table }
    ensures found { (b : ℕ) (pairs : List PairWords) → IsTable space.old table b pairs → Finds pairs key result }
    ensures same { (b : ℕ) (pairs : List PairWords) → IsTable space.old table b pairs → Becomes space.old space.new table b pairs }
{
    slot_of(space, table, key)
}

/// The value of a key in the table at an index; `None` exactly where no pair has the key. The pairs
/// stay as they are, and so does every word outside the table.
pub fn look_up(space: &mut Space, table: u32, key: u64) -> Option<u64>
    requires { HasTable space.old table }
    ensures found { (b : ℕ) (pairs : List PairWords) → IsTable space.old table b pairs → LooksUp pairs key result }
    ensures same { (b : ℕ) (pairs : List PairWords) → IsTable space.old table b pairs → Becomes space.old space.new table b pairs }
{
    let slot = find(space, table, key)?;
    Some(space.read(table + PAIRS + 2 * slot + 1))
}

/// Whether a look-up needs a rehash before it: exactly where the flag is fixnum 1. Until tables are
/// kept by address no table does.
pub fn needs_rehash(space: &Space, table: u32) -> bool
    requires { HasTable space.now table }
    ensures { result ≡ (slice_index space.now (table + 2) == 2) }
{
    space.read(table + FLAG) == STALE
}

/// Makes a table ready for look-ups after its keys have moved. Until tables are kept by address it
/// changes nothing.
pub fn rehash(_space: &mut Space, _table: u32)
    requires { HasTable _space.old _table }
    ensures { (b : ℕ) (pairs : List PairWords) → IsTable _space.old _table b pairs → Becomes _space.old _space.new _table b pairs }
{}
