//! The roots of a collection.

ghost use Rattle.std.specs.Prelude.{◌≡◌, ◌++◌, filter, flat_map, IfOk, OnOk};
ghost use Rattle.lisp_heap.specs.Rooting.{ambiguous_roots, exact_roots, may_refer, pinned_words};

use crate::cells::CellWords;
use crate::pins::Pins;
use collect_pass::Roots;
use heap_terms::Memory;

/// The byte address of the word with index 0. No smaller word refers to an object.
const BASE_ADDRESS: u64 = 0x10_0000_0000;

/// Adds those of some words that are as large as references.
fn add_references(words: &[u64], out: &mut Vec<u64>) -> Result<(), Memory>
    ensures { OnOk result (out.new.items ≡ out.old.items ++ filter may_refer words.now) }
{
    for word in words {
        if *word >= BASE_ADDRESS {
            out.push(*word)?;
        }
    }
    Ok(())
}

/// Adds those of the pins of all threads.
fn add_pins(pins: &Pins, out: &mut Vec<u64>) -> Result<(), Memory>
    ensures { OnOk result (out.new.items ≡ out.old.items ++ filter may_refer (flat_map pinned_words pins.now)) }
{
    for t in 0..pins.len() {
        add_references(pins.at(t), out)?;
    }
    Ok(())
}

/// Puts the words of all exact cells and all words that pin into the lists of roots.
pub fn gather(cells: &CellWords, pins: &Pins, roots: &mut Roots) -> Result<(), Memory>
    ensures exact { OnOk result (roots.new.exact.items ≡ exact_roots cells.now) }
    ensures ambiguous { OnOk result (roots.new.ambiguous.items ≡ ambiguous_roots cells.now pins.now) }
{
    roots.exact.clear();
    roots.exact.extend_from_slice(cells.exact())?;
    roots.exact.extend_from_slice(cells.shared())?;
    roots.ambiguous.clear();
    add_references(cells.stack(), &mut roots.ambiguous)?;
    add_references(cells.raws(), &mut roots.ambiguous)?;
    add_pins(pins, &mut roots.ambiguous)
}
