//! The weaknesses of tables, as scripts name them.

ghost use Rattle.std.specs.Prelude.{◌≡◌};
ghost use Rattle.script_text.specs.Commands.{a_weakness};

use heap_terms::{Weakness, Why};

/// A weakness.
#[tactic(auto, unfolding(heap_terms::specs::Fields::weakness_named))]
pub(crate) fn weakness(field: &[u8]) -> Result<Weakness, Why>
    ensures { result ≡ a_weakness field.now }
{
    if field == b"strong".as_slice() {
        return Ok(Weakness::Strong);
    }
    if field == b"key".as_slice() {
        return Ok(Weakness::Key);
    }
    if field == b"value".as_slice() {
        return Ok(Weakness::Value);
    }
    if field == b"key-and-value".as_slice() {
        return Ok(Weakness::KeyAndValue);
    }
    if field == b"key-or-value".as_slice() {
        return Ok(Weakness::KeyOrValue);
    }
    Err(Why::Form)
}
