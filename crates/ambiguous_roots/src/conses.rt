//! Pages of conses on which nothing can be hit: counting is enough, and faster than a walk.

ghost use Rattle.std.specs.Prelude.{◌≡◌, ◌*◌, ◌/◌, ◌<◌, ◌≤◌, List, All, length, IfSome, false};
ghost use Rattle.heap_terms.specs.LaidOut.{IsLaidOut, AreObjectsOn, ObjectStart};
ghost use Rattle.heap_terms.specs.Layout.{page_words};
ghost use Rattle.ambiguous_roots.specs.Conses.{CountsStarts};
ghost use Rattle.ambiguous_roots.specs.Hinted.{hint_of};

use crate::hints::Hints;
use heap_terms::{Entry, PAGE_WORDS, PageType};
use object_walk::FILLER_WORD;
use page_table::PageTable;
use word_space::Space;

/// How many objects begin on a page; only answered where it is in use for conses, begins its run and
/// has nothing but them, and no hint is set for it.
pub(crate) fn unhinted_conses(
    space: &Space,
    pages: &PageTable,
    page: u32,
    hints: &Hints,
) -> Option<u32>
    requires paged { length space.now ≡ page_words * length pages.now }
    requires inside { page < length pages.now }
    requires hints { 2 * length hints.now ≡ length space.now }
    requires laid { IsLaidOut space.now pages.now page }
    ensures count { IfSome result (λ n. (starts : List ObjectStart) → AreObjectsOn space.now pages.now page starts → n ≡ length starts) }
    ensures unhinted { IfSome result (λ n. (starts : List ObjectStart) → AreObjectsOn space.now pages.now page starts →
        All (λ (s : ObjectStart). hint_of hints.now (s.index / 2) ≡ false) starts) }
{
    prove!(page < pages.len());
    let Entry::Used {
        ty: PageType::Cons,
        fill,
        run_first,
        ..
    } = pages.entry(page)
    else {
        return None;
    };
    if run_first != page || hints.is_any_on(page) {
        return None;
    }
    conses_in(space.window(PAGE_WORDS * page, fill)?)
}

/// How many conses begin on words that are laid out in pieces; none where something else does. Fillers
/// come in pairs, and are passed over.
fn conses_in(words: &[u64]) -> Option<u32>
    requires { length words.now ≤ page_words }
    ensures { IfSome result (CountsStarts words.now) }
{
    let mut count = 0;
    let mut index = 0;
    while index < words.len() {
        let word = words[index];
        // No value with which a cons begins is 1 modulo 4; headers and fillers are.
        if word % 4 != 1 {
            count += 1;
        } else if word != FILLER_WORD {
            return None;
        }
        index += 2;
    }
    Some(count)
}
