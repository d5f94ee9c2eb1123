//! Where fields begin and end.

ghost use Rattle.std.specs.Prelude.{◌≡◌, ◌<◌, ◌||◌, ◌==◌, length, drop, false};
ghost use Rattle.heap_terms.specs.Fields.{is_blank};
ghost use Rattle.script_text.specs.Left.{ends_field, field_len, SameLeft, starts_with_blank};

/// Whether a byte is a space or an LF, before which a field of the usual spelling ends.
#[inline(always)]
pub(crate) fn ends_plainly(byte: u8) -> bool
    ensures { result ≡ (byte == 32 || byte == 10) }
{
    byte == b' ' || byte == b'\n'
}

/// Whether a field ends at byte `at`: at a blank, at an LF or at a CR before an LF.
fn field_ends_at(bytes: &[u8], at: usize) -> bool
    requires { at < length bytes.now }
    ensures { result ≡ ends_field (drop at bytes.now) }
{
    let byte = bytes[at];
    if byte > b' ' {
        return false;
    }
    match byte {
        b' ' | b'\t' | b'\n' => true,
        b'\r' => at + 1 < bytes.len() && bytes[at + 1] == b'\n',
        _ => false,
    }
}

/// How many bytes stand before the place where a field ends.
pub(crate) fn len_of_field(bytes: &[u8]) -> usize
    ensures { result ≡ field_len bytes.now }
{
    let mut len = 0;
    while len < bytes.len() && !field_ends_at(bytes, len) {
        len += 1;
    }
    len
}

/// Whether a byte parts fields: a space or a tab.
fn parts_fields(byte: u8) -> bool
    ensures { result ≡ is_blank byte }
{
    byte == b' ' || byte == b'\t'
}

/// The bytes after the blanks at their front.
pub(crate) fn without_blanks(bytes: &[u8]) -> &[u8]
    ensures same { SameLeft bytes.now result.now }
    ensures solid { starts_with_blank result.now ≡ false }
{
    let mut start = 0;
    while start < bytes.len() && parts_fields(bytes[start]) {
        start += 1;
    }
    let (_, rest) = bytes.split_at(start);
    rest
}
