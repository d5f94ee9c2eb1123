//! The numbers of a summary, in one walk over the events.

ghost use Rattle.std.specs.Prelude.{◌≡◌, ◌+◌, sum_by, length, count_by, is_none};
ghost use Rattle.heap_terms.specs.Summary.{capped, totals_of};
ghost use Rattle.heap_report.specs.Counting.{before_events, with_commit, with_event, with_pass, with_passes};

use heap_terms::{Answer, Commands, Event, PassRecord, Placing, Program, Totals};

/// The fifteen numbers of a program and its history. It takes no memory, and one step for each
/// thread, event, pass and move.
pub fn summary(program: &Program, events: &[Event]) -> Totals
    ensures { result ≡ totals_of program.now events.now }
{
    let mut totals = of_program(program, events.len() as u64);
    for event in events {
        add_event(&mut totals, event);
    }
    totals
}

/// The numbers of a program, and how many events there are.
fn of_program(program: &Program, events: u64) -> Totals
    ensures { result ≡ before_events program.now events }
{
    Totals {
        threads: program.threads.len() as u64,
        pages: u64::from(program.pages),
        commands: commands_in(program.threads.as_slice()),
        events,
        objects: 0,
        collections: 0,
        passes: 0,
        moved: 0,
        pinned: 0,
        stayed: 0,
        dead: 0,
        culled: 0,
        broken: 0,
        queued: 0,
        freed: 0,
    }
}

/// How many commands all threads have.
fn commands_in(threads: &[Commands]) -> u64
    ensures { result ≡ capped (sum_by length threads.now) }
{
    let mut sum: u64 = 0;
    for commands in threads {
        sum = sum.saturating_add(commands.len() as u64);
    }
    sum
}

/// Adds what an event says.
fn add_event(totals: &mut Totals, event: &Event)
    ensures { totals.new ≡ with_event totals.old event.now }
{
    match event {
        Event::Did { answer, .. } => add_answer(totals, answer),
        Event::Collected { passes, .. } => {
            totals.collections = totals.collections.saturating_add(1);
            add_passes(totals, passes.as_slice());
        }
        Event::Opened { .. } => {}
        Event::Ended { .. } => {}
    }
}

/// Adds an object where the answer is that of a commit.
fn add_answer(totals: &mut Totals, answer: &Answer)
    ensures { totals.new ≡ with_commit totals.old answer.now }
{
    if let Answer::Placed { .. } = answer {
        totals.objects = totals.objects.saturating_add(1);
    }
}

/// Adds what the passes of a collection say.
fn add_passes(totals: &mut Totals, passes: &[PassRecord])
    ensures { totals.new ≡ with_passes totals.old passes.now }
{
    for pass in passes {
        add_pass(totals, pass);
    }
}

/// Adds what a pass says.
fn add_pass(totals: &mut Totals, pass: &PassRecord)
    ensures { totals.new ≡ with_pass totals.old pass.now }
{
    let stayed = stays_in(pass.moves.as_slice());
    let moved = pass.moves.len() - stayed;
    totals.passes = totals.passes.saturating_add(1);
    totals.moved = totals.moved.saturating_add(moved as u64);
    totals.pinned = totals.pinned.saturating_add(pass.pins.len() as u64);
    totals.stayed = totals.stayed.saturating_add(stayed as u64);
    totals.dead = totals.dead.saturating_add(u64::from(pass.dead));
    totals.culled = totals.culled.saturating_add(pass.culls.len() as u64);
    totals.broken = totals.broken.saturating_add(pass.breaks.len() as u64);
    totals.queued = totals.queued.saturating_add(pass.queued.len() as u64);
    totals.freed = totals.freed.saturating_add(pass.freed.len() as u64);
}

/// How many of the moves are stays.
fn stays_in(moves: &[Placing]) -> usize
    ensures { result ≡ count_by (λ m. is_none m.new) moves.now }
{
    moves.iter().filter(|m| m.new.is_none()).count()
}
