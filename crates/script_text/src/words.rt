//! The words with which lines begin, and where such a line may stand. The name of a command is also
//! read in its usual spelling, at the very front of the line and with one space after it.

ghost use Rattle.std.specs.Prelude.{◌≡◌, ◌-◌, true, false, take, MatchOption, IfSome};
ghost use Rattle.heap_terms.specs.ScriptReading.{may_follow};
ghost use Rattle.heap_terms.specs.Valid.{is_built};
ghost use Rattle.script_text.specs.Left.{IsSpelled, Taken};
ghost use Rattle.script_text.specs.Words.{text_of, text_of_name, place_of};

/// The name of a command.
#[derive(Clone, Copy)]
pub(crate) enum Name {
    Fix,
    Nil,
    Move,
    Cons,
    Vector,
    Instance,
    Closure,
    Words,
    Weak,
    Table,
    Get,
    Put,
    RawGet,
    RawPut,
    Eq,
    Show,
    Addr,
    Raw,
    Add,
    Pin,
    Unpin,
    WeakVal,
    TablePut,
    TableGet,
    TableRem,
    TableCount,
    Gc,
    Page,
    Stat,
    Nogc,
    Gcok,
    Finalize,
    Cancel,
    Runfin,
}

/// The word of a line.
#[derive(Clone, Copy)]
pub(crate) enum Keyword {
    Lispheap,
    Heap,
    Auto,
    Thread,
    Schedule,
    End,
    Command(Name),
}

/// What a word means, if a line may begin with it.
pub(crate) fn meaning_of(word: &[u8]) -> Option<Keyword>
    ensures { MatchOption result (is_built word.now ≡ false) (λ k. (word.now ≡ text_of k) × (is_built (text_of k) ≡ true)) }
{
    match word {
        b"cons" => Some(Keyword::Command(Name::Cons)),
        b"vector" => Some(Keyword::Command(Name::Vector)),
        b"instance" => Some(Keyword::Command(Name::Instance)),
        b"closure" => Some(Keyword::Command(Name::Closure)),
        b"words" => Some(Keyword::Command(Name::Words)),
        b"tget" => Some(Keyword::Command(Name::TableGet)),
        b"tput" => Some(Keyword::Command(Name::TablePut)),
        b"trem" => Some(Keyword::Command(Name::TableRem)),
        b"tcount" => Some(Keyword::Command(Name::TableCount)),
        b"weakval" => Some(Keyword::Command(Name::WeakVal)),
        b"weak" => Some(Keyword::Command(Name::Weak)),
        b"table" => Some(Keyword::Command(Name::Table)),
        b"get" => Some(Keyword::Command(Name::Get)),
        b"put" => Some(Keyword::Command(Name::Put)),
        b"show" => Some(Keyword::Command(Name::Show)),
        b"fix" => Some(Keyword::Command(Name::Fix)),
        b"nil" => Some(Keyword::Command(Name::Nil)),
        b"move" => Some(Keyword::Command(Name::Move)),
        b"eq" => Some(Keyword::Command(Name::Eq)),
        b"rawget" => Some(Keyword::Command(Name::RawGet)),
        b"rawput" => Some(Keyword::Command(Name::RawPut)),
        b"addr" => Some(Keyword::Command(Name::Addr)),
        b"raw" => Some(Keyword::Command(Name::Raw)),
        b"add" => Some(Keyword::Command(Name::Add)),
        b"page" => Some(Keyword::Command(Name::Page)),
        b"stat" => Some(Keyword::Command(Name::Stat)),
        b"pin" => Some(Keyword::Command(Name::Pin)),
        b"unpin" => Some(Keyword::Command(Name::Unpin)),
        b"gc" => Some(Keyword::Command(Name::Gc)),
        b"nogc" => Some(Keyword::Command(Name::Nogc)),
        b"gcok" => Some(Keyword::Command(Name::Gcok)),
        b"finalize" => Some(Keyword::Command(Name::Finalize)),
        b"cancel" => Some(Keyword::Command(Name::Cancel)),
        b"runfin" => Some(Keyword::Command(Name::Runfin)),
        b"schedule" => Some(Keyword::Schedule),
        b"thread" => Some(Keyword::Thread),
        b"end" => Some(Keyword::End),
        b"heap" => Some(Keyword::Heap),
        b"auto" => Some(Keyword::Auto),
        b"lispheap" => Some(Keyword::Lispheap),
        _ => None,
    }
}

/// The bytes from a word's space on, where the word and that space stand at the front.
#[inline(always)]
fn plain_word<'a, const N: usize>(rest: &'a [u8], spelled: &[u8; N]) -> Option<&'a [u8]>
    requires { IsSpelled spelled.now }
    ensures { IfSome result (λ after. Taken rest.now (take (N - 1) spelled.now) after.now) }
{
    rest.strip_prefix(spelled.as_slice())?;
    let (_, after) = rest.split_at(N - 1);
    Some(after)
}

/// The name of a command that begins with `a`, as below.
#[inline(always)]
fn plain_a(rest: &[u8]) -> Option<(Name, &[u8])>
    ensures taken { IfSome result (λ f. Taken rest.now (text_of_name f.0) f.1.now) }
    ensures built { IfSome result (λ f. is_built (text_of_name f.0) ≡ true) }
{
    match plain_word(rest, b"addr ") {
        Some(after) => Some((Name::Addr, after)),
        None => Some((Name::Add, plain_word(rest, b"add ")?)),
    }
}

/// The name of a command that begins with `c`, as below.
#[inline(always)]
fn plain_c(rest: &[u8]) -> Option<(Name, &[u8])>
    ensures taken { IfSome result (λ f. Taken rest.now (text_of_name f.0) f.1.now) }
    ensures built { IfSome result (λ f. is_built (text_of_name f.0) ≡ true) }
{
    match plain_word(rest, b"cons ") {
        Some(after) => Some((Name::Cons, after)),
        None => Some((Name::Closure, plain_word(rest, b"closure ")?)),
    }
}

/// The name of a command that begins with `r`, as below.
#[inline(always)]
fn plain_r(rest: &[u8]) -> Option<(Name, &[u8])>
    ensures taken { IfSome result (λ f. Taken rest.now (text_of_name f.0) f.1.now) }
    ensures built { IfSome result (λ f. is_built (text_of_name f.0) ≡ true) }
{
    if let Some(after) = plain_word(rest, b"rawget ") {
        return Some((Name::RawGet, after));
    }
    match plain_word(rest, b"rawput ") {
        Some(after) => Some((Name::RawPut, after)),
        None => Some((Name::Raw, plain_word(rest, b"raw ")?)),
    }
}

/// The name of a command that begins with `t`, as below.
#[inline(always)]
fn plain_t(rest: &[u8]) -> Option<(Name, &[u8])>
    ensures taken { IfSome result (λ f. Taken rest.now (text_of_name f.0) f.1.now) }
    ensures built { IfSome result (λ f. is_built (text_of_name f.0) ≡ true) }
{
    match plain_word(rest, b"tget ") {
        Some(after) => Some((Name::TableGet, after)),
        None => Some((Name::TablePut, plain_word(rest, b"tput ")?)),
    }
}

/// The name of a command that is built, with a space after it, and the bytes from that space on.
#[inline(always)]
pub(crate) fn plain_name(rest: &[u8]) -> Option<(Name, &[u8])>
    ensures taken { IfSome result (λ f. Taken rest.now (text_of_name f.0) f.1.now) }
    ensures built { IfSome result (λ f. is_built (text_of_name f.0) ≡ true) }
{
    if rest.is_empty() {
        return None;
    }
    match rest[0] {
        b'c' => plain_c(rest),
        b'v' => Some((Name::Vector, plain_word(rest, b"vector ")?)),
        b'i' => Some((Name::Instance, plain_word(rest, b"instance ")?)),
        b'w' => Some((Name::Words, plain_word(rest, b"words ")?)),
        b'g' => Some((Name::Get, plain_word(rest, b"get ")?)),
        b'p' => Some((Name::Put, plain_word(rest, b"put ")?)),
        b's' => Some((Name::Show, plain_word(rest, b"show ")?)),
        b'f' => Some((Name::Fix, plain_word(rest, b"fix ")?)),
        b'n' => Some((Name::Nil, plain_word(rest, b"nil ")?)),
        b'm' => Some((Name::Move, plain_word(rest, b"move ")?)),
        b'e' => Some((Name::Eq, plain_word(rest, b"eq ")?)),
        b'a' => plain_a(rest),
        b'r' => plain_r(rest),
        b't' => plain_t(rest),
        _ => None,
    }
}

/// After which line a line stands.
#[derive(Clone, Copy)]
pub(crate) enum Place {
    Start,
    Version,
    Heap,
    Auto,
    Thread,
    Schedule,
    End,
}

impl Place {
    /// Whether a line with this word may stand here.
    pub(crate) fn admits(self, word: Keyword) -> bool
        ensures { result ≡ may_follow (place_of self) (text_of word) }
    {
        match self {
            Place::Start => matches!(word, Keyword::Lispheap),
            Place::Version => matches!(word, Keyword::Heap),
            Place::Heap => matches!(word, Keyword::Auto | Keyword::Thread),
            Place::Auto => matches!(word, Keyword::Thread),
            Place::Thread => !matches!(word, Keyword::Lispheap | Keyword::Heap | Keyword::Auto),
            Place::Schedule => matches!(word, Keyword::Schedule | Keyword::End),
            Place::End => false,
        }
    }
}
