//! What shapes the answers of a command have.

ghost use Rattle.std.specs.Prelude.{◌≡◌};
ghost use Rattle.journal_text.specs.Rows.{admits, may_answer, refusal_shape, shape_of};

use heap_terms::{Answer, Command, Refusal};

/// The shape of an answer.
#[derive(Clone, Copy)]
pub(crate) enum Shape {
    Done,
    Value,
    Word,
    YesOrNo,
    Absent,
    WeakValue,
    Count,
    Ran,
    Page,
    Stat,
    Placed,
    NotType,
    OutOfRange,
    Full,
    Exhausted,
    Nothing,
    PinsFull,
}

/// The shape of an answer.
fn shape_of(answer: &Answer) -> Shape
    ensures { result ≡ shape_of answer.now }
{
    match answer {
        Answer::Done => Shape::Done,
        Answer::Val(_) => Shape::Value,
        Answer::Word(_) => Shape::Word,
        Answer::Yes | Answer::No => Shape::YesOrNo,
        Answer::Absent => Shape::Absent,
        Answer::Live(_) | Answer::Broken => Shape::WeakValue,
        Answer::Count(_) => Shape::Count,
        Answer::Ran(_) => Shape::Ran,
        Answer::Page(_) => Shape::Page,
        Answer::Stat { .. } => Shape::Stat,
        Answer::Placed { .. } => Shape::Placed,
        Answer::Refused(refusal) => refusal_shape(*refusal),
    }
}

/// The shape of a refusal.
fn refusal_shape(refusal: Refusal) -> Shape
    ensures { result ≡ refusal_shape refusal }
{
    match refusal {
        Refusal::NotType => Shape::NotType,
        Refusal::OutOfRange => Shape::OutOfRange,
        Refusal::TableFull => Shape::Full,
        Refusal::Exhausted => Shape::Exhausted,
        Refusal::Nothing => Shape::Nothing,
        Refusal::PinsFull => Shape::PinsFull,
    }
}

/// Whether a command's answer may have this shape.
pub(crate) fn admits(command: &Command, shape: Shape) -> bool
    ensures { result ≡ admits command.now shape }
{
    match command {
        Command::Fix { .. }
        | Command::MakeNil { .. }
        | Command::Move { .. }
        | Command::SetRaw { .. }
        | Command::Collect { .. }
        | Command::Inhibit => matches!(shape, Shape::Done),
        Command::NewCons { .. }
        | Command::NewVector { .. }
        | Command::NewInstance { .. }
        | Command::NewClosure { .. }
        | Command::NewWords { .. }
        | Command::NewWeak { .. }
        | Command::NewTable { .. } => matches!(shape, Shape::Placed | Shape::Exhausted),
        Command::Get { .. } => matches!(shape, Shape::Value | Shape::NotType | Shape::OutOfRange),
        Command::Put { .. } | Command::RawPut { .. } => {
            matches!(shape, Shape::Done | Shape::NotType | Shape::OutOfRange)
        }
        Command::RawGet { .. } => matches!(shape, Shape::Word | Shape::NotType | Shape::OutOfRange),
        Command::Same { .. } => matches!(shape, Shape::YesOrNo),
        Command::Show { .. } => matches!(shape, Shape::Value),
        Command::Addr { .. } | Command::AddRaw { .. } => matches!(shape, Shape::Word),
        Command::Pin { .. } => matches!(shape, Shape::Done | Shape::PinsFull),
        Command::Unpin | Command::Allow => matches!(shape, Shape::Done | Shape::Nothing),
        Command::WeakVal { .. } => matches!(shape, Shape::WeakValue | Shape::NotType),
        Command::TablePut { .. } => matches!(shape, Shape::Done | Shape::NotType | Shape::Full),
        Command::TableGet { .. } => matches!(shape, Shape::Value | Shape::Absent | Shape::NotType),
        Command::TableRem { .. } => matches!(shape, Shape::YesOrNo | Shape::NotType),
        Command::TableCount { .. } | Command::Cancel { .. } => {
            matches!(shape, Shape::Count | Shape::NotType)
        }
        Command::Finalize { .. } => matches!(shape, Shape::Done | Shape::NotType),
        Command::RunFinalizers => matches!(shape, Shape::Ran | Shape::Absent),
        Command::ShowPage { .. } => matches!(shape, Shape::Page | Shape::OutOfRange),
        Command::Stat { .. } => matches!(shape, Shape::Stat),
    }
}

/// Whether a command may answer so.
pub(crate) fn may_answer(command: &Command, answer: &Answer) -> bool
    ensures { result ≡ may_answer command.now answer.now }
{
    admits(command, shape_of(answer))
}
