//! The word of a command.

ghost use Rattle.std.specs.Prelude.{◌≡◌, None, MatchOption};
ghost use Rattle.journal_text.specs.Words.{command_word, word_of};

/// The name of a command.
#[derive(Clone, Copy)]
pub(crate) enum Name {
    Fix,
    Nil,
    Move,
    Cons,
    Vector,
    Instance,
    Closure,
    Words,
    Weak,
    Table,
    Get,
    Put,
    RawGet,
    RawPut,
    Eq,
    Show,
    Addr,
    Raw,
    Add,
    Pin,
    Unpin,
    WeakVal,
    Tput,
    Tget,
    Trem,
    Tcount,
    Finalize,
    Cancel,
    RunFin,
    Gc,
    NoGc,
    GcOk,
    Page,
    Stat,
}

/// The name that a word is.
#[tactic(auto, unfolding(crate::specs::Words::command_word))]
pub(crate) fn name_of_word(word: &[u8]) -> Option<Name>
    ensures { MatchOption result (command_word word.now ≡ None) (λ name. word.now ≡ word_of name) }
{
    match word {
        b"fix" => Some(Name::Fix),
        b"cons" => Some(Name::Cons),
        b"get" => Some(Name::Get),
        b"put" => Some(Name::Put),
        b"show" => Some(Name::Show),
        b"nil" => Some(Name::Nil),
        b"move" => Some(Name::Move),
        b"vector" => Some(Name::Vector),
        b"instance" => Some(Name::Instance),
        b"closure" => Some(Name::Closure),
        b"words" => Some(Name::Words),
        b"weak" => Some(Name::Weak),
        b"table" => Some(Name::Table),
        b"rawget" => Some(Name::RawGet),
        b"rawput" => Some(Name::RawPut),
        b"eq" => Some(Name::Eq),
        b"addr" => Some(Name::Addr),
        b"raw" => Some(Name::Raw),
        b"add" => Some(Name::Add),
        b"pin" => Some(Name::Pin),
        b"unpin" => Some(Name::Unpin),
        b"weakval" => Some(Name::WeakVal),
        b"tput" => Some(Name::Tput),
        b"tget" => Some(Name::Tget),
        b"trem" => Some(Name::Trem),
        b"tcount" => Some(Name::Tcount),
        b"finalize" => Some(Name::Finalize),
        b"cancel" => Some(Name::Cancel),
        b"runfin" => Some(Name::RunFin),
        b"gc" => Some(Name::Gc),
        b"nogc" => Some(Name::NoGc),
        b"gcok" => Some(Name::GcOk),
        b"page" => Some(Name::Page),
        b"stat" => Some(Name::Stat),
        _ => None,
    }
}
