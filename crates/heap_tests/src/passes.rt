//! Passes over heaps that commands make by hand, and no text: what moves and to where, what keeps its place,
//! which pages are given back, and what the pages and the fields are afterwards. Each expected value was worked
//! by hand from the rules.

ghost use Rattle.std.specs.Prelude.{◌≡◌, ◌≤◌, All, IfOk, true, length, cond, count_by};
ghost use Rattle.heap_terms.specs.Valid.{IsCell, IsCommand, IsValid, is_gc};

use heap_terms::Cell::{Exact, Stack};
use heap_terms::Command::{
    Addr, Collect, Get, MakeNil, NewClosure, NewCons, NewInstance, NewTable, NewVector, NewWeak,
    NewWords, Put, RawGet, ShowPage,
};
use heap_terms::PageType::{Boxed, Cons, Unboxed};
use heap_terms::{
    Answer, Cell, Command, Event, Memory, PageType, PageView, PassRecord, Program, Raw, Seq, Value,
    Weakness,
};
use replay_core::run_history;
use std::alloc::Global;
use std::process::Abort;

/// What a command answers after the pass.
#[derive(Clone, Copy, Debug, PartialEq, Eq)]
pub(crate) enum Reply {
    /// A free page.
    Free,
    /// A page of small objects, and how many of its words are used.
    Small(PageType, u32),
    /// One page of a large object of so many pages.
    Large(PageType, u32),
    /// The value of a field.
    Field(Value),
    /// A raw word.
    Word(u64),
    /// Something else.
    Other,
}

/// A heap, and what its only pass is to do, in indices of words and numbers of pages.
#[derive(Clone, Copy)]
pub(crate) struct Case<'a> {
    /// The pages of the heap, and the commands before the collection.
    pub(crate) pages: u32,
    pub(crate) made: &'a [Command],
    /// From where and to where, or to nowhere for one that stays.
    pub(crate) moves: &'a [(u32, Option<u32>)],
    pub(crate) pins: &'a [u32],
    pub(crate) freed: &'a [u32],
    pub(crate) dead: u32,
    /// Commands after the collection that allocate nothing, and what they answer.
    pub(crate) then: &'a [(Command, Reply)],
}

/// Whether there is such a cell.
fn is_cell(cell: Cell) -> bool
    ensures { result ≡ true → IsCell cell }
{
    match cell {
        Stack(i) | Exact(i) | Cell::Shared(i) => i < 16,
    }
}

/// Whether a command is in range, and one of those that the heaps here are made by.
fn is_command(command: Command) -> bool
    ensures { result ≡ true → IsCommand command }
{
    match command {
        MakeNil { d } => is_cell(d),
        Command::Move { d, c } => is_cell(d) && is_cell(c),
        NewCons { d, a, b } => is_cell(d) && is_cell(a) && is_cell(b),
        NewVector { d, n } => is_cell(d) && n <= 65_535,
        NewInstance { d, n } => is_cell(d) && n <= 65_535,
        NewClosure { d, n } => is_cell(d) && n <= 65_535,
        NewWords { d, n, .. } => is_cell(d) && n <= 65_535,
        NewWeak { d, c } => is_cell(d) && is_cell(c),
        NewTable { d, b, .. } => is_cell(d) && 1 <= b && b <= 64,
        Put { c, i, a } => is_cell(c) && i <= 65_535 && is_cell(a),
        Get { d, c, i } => is_cell(d) && is_cell(c) && i <= 65_535,
        RawGet { r, c, i } => r.0 < 8 && is_cell(c) && i <= 65_535,
        Addr { r, c } => r.0 < 8 && is_cell(c),
        Collect { g } => g <= 5,
        ShowPage { .. } => true,
        _ => false,
    }
}

/// How many collections a command asks for.
fn collections(command: Command) -> u32
    ensures { result ≡ cond (is_gc command) 1 0 }
{
    match command {
        Collect { .. } => 1,
        _ => 0,
    }
}

/// The commands of a thread, each of which is in range.
fn checked(rt: &impl Abort, alloc: Global, script: &[Command]) -> Result<Vec<Command>, Memory>
    ensures commands { IfOk result (λ commands. All IsCommand commands.items) }
    ensures few { IfOk result (λ commands. length commands.items ≤ 20000) }
    ensures gcs { IfOk result (λ commands. count_by is_gc commands.items ≤ 64) }
{
    let mut commands = Vec::new(alloc);
    let mut gcs = 0;
    for command in script {
        assert!(rt; is_command(*command) && gcs < 64);
        gcs += collections(*command);
        commands.push(*command)?;
    }
    assert!(rt; commands.len() <= 20_000);
    Ok(commands)
}

/// The program of one thread with these commands.
pub(crate) fn program_of(
    rt: &impl Abort,
    alloc: Global,
    pages: u32,
    script: &[Command],
) -> Result<Program, Memory>
    ensures { IfOk result IsValid }
{
    assert!(rt; 1 <= pages && pages <= 1_024);
    let commands = checked(rt, alloc, script)?;
    let threads = vec![in alloc; Seq::from_vec(commands)]?;
    Ok(Program {
        pages,
        auto: 0,
        threads: Seq::from_vec(threads),
        schedule: Seq::new(alloc),
    })
}

/// Appends the collection of a case, and the commands after it.
fn add_rest(script: &mut Vec<Command>, case: Case) -> Result<(), Memory> {
    script.push(Collect { g: 0 })?;
    for (command, _) in case.then {
        script.push(*command)?;
    }
    Ok(())
}

/// The commands of a case.
fn script_of(alloc: Global, case: Case) -> Result<Vec<Command>, Memory> {
    let mut script = Vec::from_slice(alloc, case.made)?;
    add_rest(&mut script, case)?;
    Ok(script)
}

/// The only pass of a history.
pub(crate) fn the_pass(history: &[Event]) -> Option<&PassRecord> {
    for event in history {
        if let Event::Collected { passes, .. } = event {
            return passes.as_slice().first();
        }
    }
    None
}

/// Compares what moved and what stayed.
fn assert_moves(rt: &impl Abort, pass: &PassRecord, moves: &[(u32, Option<u32>)]) {
    assert_eq!(rt; pass.moves.len(), moves.len());
    for (placing, (old, new)) in pass.moves.as_slice().iter().zip(moves) {
        assert_eq!(rt; (placing.old, placing.new), (*old, *new));
    }
}

/// Compares the counts of a pass, and the generations that it names.
fn assert_counts(rt: &impl Abort, pass: &PassRecord, case: Case) {
    assert_eq!(rt; pass.dead, case.dead);
    let kept = case.moves.len().saturating_add(case.pins.len());
    assert_eq!(rt; pass.kept as usize, kept);
    assert_eq!(rt; pass.generation, 0);
    assert_eq!(rt; pass.target, 0);
}

/// Compares what was pinned.
fn assert_pins(rt: &impl Abort, pass: &PassRecord, pins: &[u32]) {
    assert_eq!(rt; pass.pins.len(), pins.len());
    for (pin, index) in pass.pins.as_slice().iter().zip(pins) {
        assert_eq!(rt; pin.index, *index);
    }
}

/// What an event answered.
pub(crate) fn reply_of(event: &Event) -> Reply {
    let Event::Did { answer, .. } = event else {
        return Reply::Other;
    };
    match answer {
        Answer::Page(PageView::Free) => Reply::Free,
        Answer::Page(PageView::Small { ty, fill, .. }) => Reply::Small(*ty, *fill),
        Answer::Page(PageView::Large { ty, pages, .. }) => Reply::Large(*ty, *pages),
        Answer::Val(value) => Reply::Field(*value),
        Answer::Word(word) => Reply::Word(*word),
        _ => Reply::Other,
    }
}

/// Compares the answers of the last commands. The end of the thread stands behind them.
fn assert_replies(rt: &impl Abort, history: &[Event], then: &[(Command, Reply)]) {
    for (event, (_, reply)) in history.iter().rev().skip(1).zip(then.iter().rev()) {
        assert_eq!(rt; reply_of(event), *reply);
    }
}

/// Runs a case and compares.
pub(crate) fn assert_case(rt: &impl Abort, alloc: Global, case: Case) -> Result<(), Memory> {
    let script = script_of(alloc, case)?;
    let world = run_history(alloc, program_of(rt, alloc, case.pages, &script)?)?;
    assert_left(rt, world.history(), case);
    Ok(())
}

/// Compares what a pass did and what it left.
fn assert_left(rt: &impl Abort, history: &[Event], case: Case) {
    let Some(pass) = the_pass(history) else {
        assert!(rt; false, "there was no pass");
        return;
    };
    assert_moves(rt, pass, case.moves);
    assert_pins(rt, pass, case.pins);
    assert_eq!(rt; pass.freed.as_slice(), case.freed);
    assert_counts(rt, pass, case);
    assert_replies(rt, history, case.then);
}

/// A new cons.
pub(crate) fn cons(d: Cell, a: Cell, b: Cell) -> Command {
    NewCons { d, a, b }
}

/// A new vector of n fields.
pub(crate) fn vector(d: Cell, n: u32) -> Command {
    NewVector { d, n }
}

/// A new object of one raw word, which looks like a reference to a cons at the front of the heap.
pub(crate) fn one_word(d: Cell) -> Command {
    NewWords {
        d,
        n: 1,
        w: 0x10_0000_0007,
    }
}

/// Field i of an object is written.
pub(crate) fn put(c: Cell, i: u32, a: Cell) -> Command {
    Put { c, i, a }
}

/// A cell lets go what it holds.
pub(crate) fn nil(d: Cell) -> Command {
    MakeNil { d }
}

/// A page is shown.
pub(crate) fn page(p: u32, reply: Reply) -> (Command, Reply) {
    (ShowPage { p }, reply)
}

/// Field i of an object refers to an object of that name, which a cell holds then.
pub(crate) fn field(d: Cell, c: Cell, i: u32, name: u32) -> (Command, Reply) {
    (Get { d, c, i }, Reply::Field(Value::Ref(name)))
}

/// The word of a cell.
pub(crate) fn address(c: Cell, word: u64) -> (Command, Reply) {
    (Addr { r: Raw(0), c }, Reply::Word(word))
}

/// Raw word i of an object.
pub(crate) fn raw_word(c: Cell, i: u32, word: u64) -> (Command, Reply) {
    (RawGet { r: Raw(0), c, i }, Reply::Word(word))
}

/// A root holds the second of three conses alone, and that one the first.
#[test]
fn two_of_three_conses_move_and_one_is_gone(rt: HostRuntime) -> Result<(), Memory> {
    let case = Case {
        pages: 4,
        made: &[
            cons(Exact(0), Stack(0), Stack(0)),
            cons(Exact(1), Exact(0), Stack(0)),
            cons(Exact(2), Stack(0), Stack(0)),
            nil(Exact(0)),
            nil(Exact(2)),
        ],
        moves: &[(2, Some(512)), (0, Some(514))],
        pins: &[],
        freed: &[0],
        dead: 1,
        then: &[
            page(0, Reply::Free),
            page(1, Reply::Small(Cons, 4)),
            address(Exact(1), 0x10_0000_1007),
            field(Exact(0), Exact(1), 0, 0),
            address(Exact(0), 0x10_0000_1017),
        ],
    };
    assert_case(&rt, rt.alloc(), case)
}

/// A cons in an ambiguous cell, and one in an exact cell that refers to it.
#[test]
fn what_moves_off_the_page_of_a_pinned_object_refers_to_it(rt: HostRuntime) -> Result<(), Memory> {
    let case = Case {
        pages: 4,
        made: &[
            cons(Stack(0), Exact(0), Exact(0)),
            cons(Exact(1), Stack(0), Exact(0)),
        ],
        moves: &[(2, Some(512))],
        pins: &[0],
        freed: &[],
        dead: 0,
        then: &[
            page(0, Reply::Small(Cons, 4)),
            page(1, Reply::Small(Cons, 2)),
            address(Stack(0), 0x10_0000_0007),
            address(Exact(1), 0x10_0000_1007),
            field(Exact(0), Exact(1), 0, 0),
        ],
    };
    assert_case(&rt, rt.alloc(), case)
}

/// A cons in an exact and in an ambiguous cell.
#[test]
fn an_ambiguous_root_pins_what_an_exact_one_holds_too(rt: HostRuntime) -> Result<(), Memory> {
    let case = Case {
        pages: 4,
        made: &[
            cons(Exact(0), Stack(0), Stack(0)),
            Command::Move {
                d: Stack(0),
                c: Exact(0),
            },
            cons(Exact(1), Exact(0), Exact(0)),
        ],
        moves: &[(2, Some(512))],
        pins: &[0],
        freed: &[],
        dead: 0,
        then: &[
            address(Exact(0), 0x10_0000_0007),
            address(Stack(0), 0x10_0000_0007),
            address(Exact(1), 0x10_0000_1007),
        ],
    };
    assert_case(&rt, rt.alloc(), case)
}

/// Two conses that refer to each other, of which a root holds the second.
#[test]
fn a_cycle_moves_once(rt: HostRuntime) -> Result<(), Memory> {
    let case = Case {
        pages: 4,
        made: &[
            cons(Exact(0), Stack(0), Stack(0)),
            cons(Exact(1), Exact(0), Stack(0)),
            put(Exact(0), 1, Exact(1)),
            nil(Exact(0)),
        ],
        moves: &[(2, Some(512)), (0, Some(514))],
        pins: &[],
        freed: &[0],
        dead: 0,
        then: &[
            field(Exact(0), Exact(1), 0, 0),
            field(Exact(2), Exact(0), 1, 1),
            address(Exact(2), 0x10_0000_1007),
        ],
    };
    assert_case(&rt, rt.alloc(), case)
}

/// A raw word of an object is the word of a cons that nothing else refers to.
#[test]
fn a_raw_word_in_an_object_keeps_nothing_and_is_not_rewritten(
    rt: HostRuntime,
) -> Result<(), Memory> {
    let case = Case {
        pages: 4,
        made: &[
            cons(Exact(0), Stack(0), Stack(0)),
            one_word(Exact(1)),
            nil(Exact(0)),
        ],
        moves: &[(512, Some(1024))],
        pins: &[],
        freed: &[0, 1],
        dead: 1,
        then: &[
            page(2, Reply::Small(Unboxed, 2)),
            raw_word(Exact(1), 0, 0x10_0000_0007),
        ],
    };
    assert_case(&rt, rt.alloc(), case)
}

/// A vector of two pages in an ambiguous cell, whose last field refers to a cons.
#[test]
fn a_pinned_large_object_keeps_its_run_and_its_fields_are_rewritten(
    rt: HostRuntime,
) -> Result<(), Memory> {
    let case = Case {
        pages: 4,
        made: &[
            cons(Exact(0), Stack(0), Stack(0)),
            vector(Stack(1), 600),
            put(Stack(1), 599, Exact(0)),
            nil(Exact(0)),
        ],
        moves: &[(0, Some(1536))],
        pins: &[512],
        freed: &[0],
        dead: 0,
        then: &[
            page(1, Reply::Large(Boxed, 2)),
            page(2, Reply::Large(Boxed, 2)),
            page(3, Reply::Small(Cons, 2)),
            field(Exact(0), Stack(1), 599, 0),
            address(Exact(0), 0x10_0000_3007),
        ],
    };
    assert_case(&rt, rt.alloc(), case)
}

/// A cons lives, and a vector of a page and one of two pages do not.
#[test]
fn pages_are_given_back(rt: HostRuntime) -> Result<(), Memory> {
    let case = Case {
        pages: 5,
        made: &[
            cons(Exact(0), Stack(0), Stack(0)),
            vector(Exact(1), 511),
            vector(Exact(2), 600),
            nil(Exact(1)),
            nil(Exact(2)),
        ],
        moves: &[(0, Some(2048))],
        pins: &[],
        freed: &[0, 1, 2, 3],
        dead: 2,
        then: &[
            page(0, Reply::Free),
            page(1, Reply::Free),
            page(2, Reply::Free),
            page(3, Reply::Free),
            page(4, Reply::Small(Cons, 2)),
        ],
    };
    assert_case(&rt, rt.alloc(), case)
}
