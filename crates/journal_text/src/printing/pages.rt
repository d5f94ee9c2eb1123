//! What stands on a page.

ghost use Rattle.std.specs.Prelude.{◌≡◌, ◌+◌, ◌≤◌, ◌++◌, OnOk, codes, flat_map, decimal};
ghost use Rattle.heap_terms.specs.Text.{number_field, field, type_text, item_text, page_text, name_text, index_text};
ghost use Rattle.heap_terms.specs.declared.answers.Item.{Item as PageItem};

use super::room::{GENERATION, ITEM, PAGE, TYPE};
use heap_terms::{Item, PageType, PageView};
use std::alloc::AllocError;
use text_fields::{Text, push, push_index, push_name_field, push_number, push_number_field};

/// Appends a page as the command `page` shows it.
pub(super) fn push_page(out: &mut Text, view: &PageView) -> Result<(), AllocError>
    ensures { OnOk result (out.new.text ≡ out.old.text ++ page_text view.now) }
{
    out.reserve(PAGE)?;
    match view {
        PageView::Free => push(out, b"free"),
        PageView::Small {
            ty,
            generation,
            fill,
            items,
        } => {
            push_generation(out, *ty, *generation);
            push(out, b" fill");
            push_number_field(out, *fill as u64);
            return push_items(out, items.as_slice());
        }
        PageView::Large {
            ty,
            generation,
            pages,
            name,
            index,
        } => {
            push_generation(out, *ty, *generation);
            push(out, b" large");
            push_number_field(out, *pages as u64);
            push_name_field(out, *name);
            push_index(out, *index);
        }
    }
    Ok(())
}

/// Appends the type of a page.
pub(super) fn push_type(out: &mut Text, ty: PageType)
    requires { TYPE ≤ out.old.room }
    ensures text { out.new.text ≡ out.old.text ++ type_text ty }
    ensures room { out.old.room ≤ out.new.room + TYPE }
{
    match ty {
        PageType::Cons => push(out, b"cons"),
        PageType::Boxed => push(out, b"boxed"),
        PageType::Unboxed => push(out, b"unboxed"),
    }
}

/// Appends the type and the generation of a page.
fn push_generation(out: &mut Text, ty: PageType, generation: u8)
    requires { GENERATION ≤ out.old.room }
    ensures text { out.new.text ≡ out.old.text ++ (type_text ty ++ field (codes "g" ++ decimal generation)) }
    ensures room { out.old.room ≤ out.new.room + GENERATION }
{
    push_type(out, ty);
    push(out, b" g");
    push_number(out, generation as u64);
}

/// Appends the items of a page. Their room is reserved one by one.
fn push_items(out: &mut Text, items: &[Item]) -> Result<(), AllocError>
    ensures { OnOk result (out.new.text
        ≡ out.old.text ++ flat_map (λ (item : PageItem). field (item_text item.name item.index item.count)) items.now) }
{
    for item in items {
        out.reserve(ITEM)?;
        push_item(out, item);
    }
    Ok(())
}

/// Appends an item of a page.
fn push_item(out: &mut Text, item: &Item)
    requires { ITEM ≤ out.old.room }
    ensures { out.new.text ≡ out.old.text ++ field (item_text item.now.name item.now.index item.now.count) }
{
    match item.name {
        Some(name) => push_name_field(out, name),
        None => {
            push(out, b" ~");
            push_number(out, item.count as u64);
        }
    }
    push_index(out, item.index);
}
