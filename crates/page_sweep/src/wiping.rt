//! Wiping a page: what does not remain on it becomes fillers. It goes by marks and not by objects,
//! since the first words of objects that moved are gone.

ghost use Rattle.std.specs.Prelude.{◌≡◌, ℕ, ◌<◌, length};
ghost use Rattle.page_sweep.specs.Wiping.{Tracing, lies_there, IsSizedAt, HasSize, CanWipe, IsWiped};

use copy_space::{Mark, Marks};
use heap_terms::{PAGE_WORDS, PageType};
use lisp_words::{read_header, size_of};
use object_walk::FILLER_WORD;
use word_space::Space;

/// Whether an object that keeps its place begins at a double word with this mark.
#[inline(always)]
fn keeps_place(mark: Mark) -> bool
    ensures { result ≡ lies_there mark }
{
    matches!(mark, Mark::Pinned | Mark::Stayed)
}

/// How many words the object takes that begins at an index, on a page of a type.
#[inline(always)]
fn size_at(space: &Space, index: u32, ty: PageType) -> u32
    requires inside { index < length space.now }
    requires sized { HasSize space.now index ty }
    ensures { (size : ℕ) → IsSizedAt space.now index ty size → result ≡ size }
{
    match ty {
        PageType::Cons => 2,
        PageType::Boxed | PageType::Unboxed => match read_header(space.read(index)) {
            Some((kind, n)) => size_of(kind, n),
            // It does not come.
            None => 2,
        },
    }
}

/// Writes fillers over all words of a page of the pass's generation, up to its fill, that belong to
/// nothing that remains there.
pub(crate) fn wipe(space: &mut Space, marks: &Marks, page: u32, ty: PageType, fill: u32)
    ghost at: { Tracing }
    requires marks_are { marks.now ≡ at.state.marks }
    requires can { CanWipe at space.old page ty fill }
    ensures { IsWiped at space.old space.new page fill }
{
    let start = PAGE_WORDS * page;
    let end = start + fill;
    let mut index = start;
    while index < end {
        if keeps_place(marks.at(index)) {
            index += size_at(space, index, ty);
        } else {
            space.write(index, FILLER_WORD);
            space.write(index + 1, FILLER_WORD);
            index += 2;
        }
    }
}
