//! The view of one page.

ghost use Rattle.std.specs.Prelude.{◌≡◌, ◌≢◌, ◌+◌, ◌*◌, ◌/◌, ◌<◌, ◌≤◌, ◌∷◌, ◌++◌, [], length, IfOk, OnOk};
ghost use Rattle.heap_terms.specs.declared.pages.Entry.TheVariants.{Used};
ghost use Rattle.heap_terms.specs.Heap.{NamedHeap, entry_at};
ghost use Rattle.heap_terms.specs.Layout.{page_words};
ghost use Rattle.heap_terms.specs.PageViews.{begun_at, page_view, items_of};
ghost use Rattle.page_views.specs.Labelled.{CanView, IsByItself};
ghost use Rattle.page_views.specs.Seen.{gap_between};

use heap_terms::{Entry, Item, Items, MOST_PAGES, Memory, PAGE_WORDS, PageView};
use object_walk::{PageWalk, start_at};
use page_table::PageTable;
use std::alloc::Global;
use word_space::{Prefilled, Space};

/// What `page` shows of a page: that it is free; the objects and the gaps of a page that is a run by
/// itself; the object of a longer run, and while that is open an empty page. It is refused only for
/// want of memory.
pub fn view_page(
    alloc: Global,
    space: &Space,
    pages: &PageTable,
    labels: &Prefilled<u32>,
    page: u32,
) -> Result<PageView, Memory>
    ghost a: { NamedHeap }
    requires can { CanView a space.now pages.now labels.now }
    requires inside { page < length pages.now }
    ensures { IfOk result (λ view. view ≡ page_view a page) }
{
    let Entry::Used {
        ty,
        generation,
        fill,
        run_first,
        run_pages,
    } = pages.entry(page)
    else {
        return Ok(PageView::Free);
    };
    if run_pages == 1 {
        let items = items_on(alloc, space, pages, labels, page, fill)?;
        return Ok(PageView::Small {
            ty,
            generation,
            fill,
            items,
        });
    }
    prove!(pages.len() <= MOST_PAGES);
    let index = PAGE_WORDS * run_first;
    match name_at(space, pages, labels, index) {
        Some(name) => Ok(PageView::Large {
            ty,
            generation,
            pages: run_pages,
            name,
            index,
        }),
        None => Ok(PageView::Small {
            ty,
            generation,
            fill: 0,
            items: Items::new(alloc),
        }),
    }
}

/// The name of the object that begins at an index; none where none does.
fn name_at(space: &Space, pages: &PageTable, labels: &Prefilled<u32>, index: u32) -> Option<u32>
    ghost a: { NamedHeap }
    requires can { CanView a space.now pages.now labels.now }
    requires inside { index < length space.now }
    ensures { result ≡ begun_at a index }
{
    match start_at(space, pages, index) {
        Some(found) => Some(labels.at((found.index / 2) as usize)),
        None => None,
    }
}

/// The items of a page that is a run by itself, of which so many words are used.
fn items_on(
    alloc: Global,
    space: &Space,
    pages: &PageTable,
    labels: &Prefilled<u32>,
    page: u32,
    fill: u32,
) -> Result<Items, Memory>
    ghost a: { NamedHeap }
    requires can { CanView a space.now pages.now labels.now }
    requires inside { page < length pages.now }
    requires small { IsByItself (entry_at pages.now page) fill }
    ensures { IfOk result (λ items. items ≡ items_of a (page_words * page) fill) }
{
    prove!(pages.len() <= MOST_PAGES);
    let mut items = Items::new(alloc);
    let mut walk = PageWalk::new(space, pages, page);
    let mut next = PAGE_WORDS * page;
    while let Some(found) = walk.next() {
        push_gap(&mut items, next, found.index)?;
        push(
            &mut items,
            Item {
                name: Some(labels.at((found.index / 2) as usize)),
                index: found.index,
                count: 0,
            },
        )?;
        next = found.index + found.size;
    }
    push_gap(&mut items, next, PAGE_WORDS * page + fill)?;
    Ok(items)
}

/// Adds the gap between two indices, if there is one.
fn push_gap(items: &mut Items, from: u32, to: u32) -> Result<(), Memory>
    requires { from ≤ to }
    ensures { OnOk result (items.new ≡ items.old ++ gap_between from to) }
{
    if from == to {
        return Ok(());
    }
    push(
        items,
        Item {
            name: None,
            index: from,
            count: to - from,
        },
    )
}

/// Adds an item.
fn push(items: &mut Items, item: Item) -> Result<(), Memory>
    ensures { OnOk result (items.new ≡ items.old ++ item ∷ []) }
{
    match items.push(item) {
        Ok(()) => Ok(()),
        Err(_) => Err(Memory),
    }
}
