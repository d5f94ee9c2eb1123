//! The items of a page, and the object of a large one.

ghost use Rattle.std.specs.Prelude.{ℕ, ◌≡◌, ◌≢◌, ◌<◌, ◌≤◌, None, Some, MatchOption, length, slice_index};
ghost use Rattle.journal_text.specs.AnswerReading.{an_item, an_object, cut_at, item_of};

use super::numbers::{count, number_32};
use super::values::name;
use heap_terms::{Item, MOST_COMMANDS, MOST_WORDS};

/// Where the first `@` stands, or how many bytes there are.
fn place_of_at(bytes: &[u8]) -> usize
    ensures within { result ≤ length bytes.now }
    ensures before { (k : ℕ) → k < result → slice_index bytes.now k ≢ 64 }
    ensures found { result < length bytes.now → slice_index bytes.now result ≡ 64 }
{
    let mut len = 0;
    while len < bytes.len() && bytes[len] != b'@' {
        len += 1;
    }
    len
}

/// What stands before the first `@` and what behind it.
fn cut(bytes: &[u8]) -> Option<(&[u8], &[u8])>
    ensures { MatchOption result (cut_at 64 bytes.now ≡ None) (λ p. cut_at 64 bytes.now ≡ Some (p.0.now, p.1.now)) }
{
    let len = place_of_at(bytes);
    if len == bytes.len() {
        return None;
    }
    let (front, after) = bytes.split_at(len);
    let (_, back) = after.split_at(1);
    Some((front, back))
}

/// The item of this index: what stands before the `@`.
fn item_at(front: &[u8], index: u32) -> Option<Item>
    ensures { result ≡ item_of front.now index }
{
    match front {
        [b'#', digits @ ..] => {
            let name = number_32(digits, MOST_COMMANDS - 1)?;
            Some(Item {
                name: Some(name),
                index,
                count: 0,
            })
        }
        [b'~', digits @ ..] => {
            let count = count(digits, u32::MAX)?;
            Some(Item {
                name: None,
                index,
                count,
            })
        }
        _ => None,
    }
}

/// An item of a page.
#[tactic(auto, unfolding(crate::specs::AnswerReading::an_item))]
pub(crate) fn item(field: &[u8]) -> Option<Item>
    ensures { result ≡ an_item field.now }
{
    let (front, back) = cut(field)?;
    let index = number_32(back, MOST_WORDS - 1)?;
    item_at(front, index)
}

/// The name and the index of the object of a large page.
#[tactic(auto, unfolding(crate::specs::AnswerReading::an_object))]
pub(crate) fn object(field: &[u8]) -> Option<(u32, u32)>
    ensures { result ≡ an_object field.now }
{
    let (front, back) = cut(field)?;
    let name = name(front)?;
    let index = number_32(back, MOST_WORDS - 1)?;
    Some((name, index))
}
