//! What the lines so far have said.

ghost use Rattle.std.specs.Prelude.{◌≡◌, ◌↔◌, IfErr, IfOk, IsTrue, MatchOption};
ghost use Rattle.std.specs.List.{slice_split};
ghost use Rattle.journal_text.specs.Builder.{Adds, AddsLine, Closed, StopsAt, TakesLine, add, fresh, start};
ghost use Rattle.journal_text.specs.Cursors.{is_space};
ghost use Rattle.journal_text.specs.Journals.{HasNoLf};
ghost use Rattle.journal_text.specs.PieceReading.{read_line};
ghost use Rattle.journal_text.specs.declared.parsing.stages.Stage.TheVariants as stages;
ghost use Rattle.journal_text.specs.declared.parsing.pieces.Piece.TheVariants as pieces;

use super::faults::LineFault;
use super::lines::{first_line, line};
use super::pieces::Piece;
use super::plain;
use super::stages::Stage;
use heap_terms::{Cull, Event, PassRecord, Passes, PinAt, Placing, Seq};
use std::alloc::Global;
use std::marker::Model;
use std::mem;

/// The events that are whole, and the collection and the pass that may be open.
#[derive(Drop)]
pub(crate) struct Reader {
    events: Vec<Event>,
    stage: Stage,
    thread: u32,
    last: u8,
    passes: Passes,
    pass: PassRecord,
}

impl Model for Reader {
    ghost use Rattle.journal_text.specs.Builder.{State};

    ghost Value = { State };

    ghost view = { λ r. record { events = r.events.items; stage = r.stage; thread = r.thread; last = r.last; passes = r.passes; pass = r.pass } };
}

/// A pass without entries. It takes no memory.
fn fresh(alloc: Global, generation: u8, target: u8) -> PassRecord
    ensures { result ≡ fresh generation target }
{
    PassRecord {
        generation,
        target,
        moves: Seq::new(alloc),
        pins: Seq::new(alloc),
        culls: Seq::new(alloc),
        breaks: Seq::new(alloc),
        queued: Seq::new(alloc),
        freed: Seq::new(alloc),
        dead: 0,
        kept: 0,
    }
}

impl Reader {
    /// Before the first line.
    pub(crate) fn new(alloc: Global) -> Self
        ensures { result ≡ start }
    {
        Reader {
            events: Vec::new(alloc),
            stage: Stage::Between,
            thread: 0,
            last: 0,
            passes: Seq::new(alloc),
            pass: fresh(alloc, 0, 0),
        }
    }

    /// Makes the collection that may be open an event.
    fn close(&mut self, alloc: Global) -> Result<(), LineFault>
        ensures { Closed self.old self.new result }
    {
        match self.stage {
            Stage::Between => Ok(()),
            Stage::Collecting => {
                let passes = mem::replace(&mut self.passes, Seq::new(alloc));
                self.events.push(Event::Collected {
                    thread: self.thread,
                    last: self.last,
                    passes,
                })?;
                Ok(())
            }
            _ => Err(LineFault::Form),
        }
    }

    /// An event that is no collection.
    #[inline(always)]
    fn event(&mut self, alloc: Global, event: Event) -> Result<(), LineFault>
        ensures { Adds (add self.old (pieces.Event event)) self.new result }
    {
        if !matches!(self.stage, Stage::Between) || self.passes.len() != 0 {
            return self.event_behind(alloc, event);
        }
        self.events.push(event)?;
        Ok(())
    }

    /// The same behind a collection.
    #[cold]
    #[inline(never)]
    fn event_behind(&mut self, alloc: Global, event: Event) -> Result<(), LineFault>
        ensures { Adds (add self.old (pieces.Event event)) self.new result }
    {
        self.close(alloc)?;
        self.events.push(event)?;
        self.passes = Seq::new(alloc);
        self.stage = Stage::Between;
        Ok(())
    }

    /// A collection.
    fn collect(&mut self, alloc: Global, thread: u32, last: u8) -> Result<(), LineFault>
        ensures { Adds (add self.old (pieces.Collect thread last)) self.new result }
    {
        self.close(alloc)?;
        self.passes = Seq::new(alloc);
        self.thread = thread;
        self.last = last;
        self.stage = Stage::Collecting;
        Ok(())
    }

    /// A pass.
    fn open_pass(&mut self, alloc: Global, generation: u8, target: u8) -> Result<(), LineFault>
        ensures { Adds (add self.old (pieces.Pass generation target)) self.new result }
    {
        match self.stage {
            Stage::Collecting => {
                self.pass = fresh(alloc, generation, target);
                self.stage = Stage::Moves;
                Ok(())
            }
            _ => Err(LineFault::Form),
        }
    }

    /// A move or a stay.
    fn moved(&mut self, placing: Placing) -> Result<(), LineFault>
        ensures { Adds (add self.old (pieces.Move placing)) self.new result }
    {
        if !self.stage.is_open(Stage::Moves) {
            return Err(LineFault::Form);
        }
        self.pass.moves.push(placing)?;
        self.stage = Stage::Moves;
        Ok(())
    }

    /// A pinned object.
    fn pinned(&mut self, pin: PinAt) -> Result<(), LineFault>
        ensures { Adds (add self.old (pieces.Pin pin)) self.new result }
    {
        if !self.stage.is_open(Stage::Pins) {
            return Err(LineFault::Form);
        }
        self.pass.pins.push(pin)?;
        self.stage = Stage::Pins;
        Ok(())
    }

    /// A culled pair.
    fn culled(&mut self, cull: Cull) -> Result<(), LineFault>
        ensures { Adds (add self.old (pieces.Cull cull)) self.new result }
    {
        if !self.stage.is_open(Stage::Culls) {
            return Err(LineFault::Form);
        }
        self.pass.culls.push(cull)?;
        self.stage = Stage::Culls;
        Ok(())
    }

    /// A broken weak pointer.
    fn broke(&mut self, name: u32) -> Result<(), LineFault>
        ensures { Adds (add self.old (pieces.Break name)) self.new result }
    {
        if !self.stage.is_open(Stage::Breaks) {
            return Err(LineFault::Form);
        }
        self.pass.breaks.push(name)?;
        self.stage = Stage::Breaks;
        Ok(())
    }

    /// A finalizer that was queued.
    fn queued(&mut self, id: u32) -> Result<(), LineFault>
        ensures { Adds (add self.old (pieces.Queue id)) self.new result }
    {
        if !self.stage.is_open(Stage::Queued) {
            return Err(LineFault::Form);
        }
        self.pass.queued.push(id)?;
        self.stage = Stage::Queued;
        Ok(())
    }

    /// A page that became free.
    fn freed(&mut self, page: u32) -> Result<(), LineFault>
        ensures { Adds (add self.old (pieces.Free page)) self.new result }
    {
        if !self.stage.is_open(Stage::Freed) {
            return Err(LineFault::Form);
        }
        self.pass.freed.push(page)?;
        self.stage = Stage::Freed;
        Ok(())
    }

    /// The end of a pass.
    fn swept(&mut self, alloc: Global, dead: u32, kept: u32) -> Result<(), LineFault>
        ensures { Adds (add self.old (pieces.Swept dead kept)) self.new result }
    {
        if !self.stage.is_open(Stage::Freed) {
            return Err(LineFault::Form);
        }
        let mut pass = mem::replace(&mut self.pass, fresh(alloc, 0, 0));
        pass.dead = dead;
        pass.kept = kept;
        self.passes.push(pass)?;
        self.stage = Stage::Collecting;
        Ok(())
    }

    /// The last line.
    fn done(&mut self, alloc: Global, count: u64) -> Result<(), LineFault>
        ensures { Adds (add self.old (pieces.Done count)) self.new result }
    {
        self.close(alloc)?;
        if self.events.len() as u64 != count {
            return Err(LineFault::Form);
        }
        self.passes = Seq::new(alloc);
        self.stage = Stage::Done;
        Ok(())
    }

    /// What one more line says.
    fn add(&mut self, alloc: Global, piece: Piece) -> Result<(), LineFault>
        ensures { Adds (add self.old piece) self.new result }
    {
        match piece {
            Piece::Event(event) => self.event(alloc, event),
            Piece::Collect { thread, last } => self.collect(alloc, thread, last),
            Piece::Pass { generation, target } => self.open_pass(alloc, generation, target),
            Piece::Move(placing) => self.moved(placing),
            Piece::Pin(pin) => self.pinned(pin),
            Piece::Cull(cull) => self.culled(cull),
            Piece::Break(name) => self.broke(name),
            Piece::Queue(id) => self.queued(id),
            Piece::Free(page) => self.freed(page),
            Piece::Swept { dead, kept } => self.swept(alloc, dead, kept),
            Piece::Done(count) => self.done(alloc, count),
        }
    }

    /// One more line, without its LF.
    fn line(&mut self, alloc: Global, content: &[u8]) -> Result<(), LineFault>
        ensures { AddsLine self.old (read_line (slice_split is_space content.now)) self.new result }
    {
        let piece = line(alloc, content)?;
        self.add(alloc, piece)
    }

    /// The line at the front, and the bytes behind it; none where no LF is left.
    #[cold]
    #[inline(never)]
    fn take_any_line<'a>(
        &mut self,
        alloc: Global,
        bytes: &'a [u8],
    ) -> Result<Option<&'a [u8]>, LineFault>
        ensures taken { IfOk result (λ left. MatchOption left (HasNoLf bytes.now × (self.new ≡ self.old)) (λ after. TakesLine self.old bytes.now after.now self.new)) }
        ensures stopped { IfErr result (λ fault. StopsAt self.old bytes.now self.new fault) }
    {
        let Some((content, after)) = first_line(bytes) else {
            return Ok(None);
        };
        match self.line(alloc, content) {
            Ok(()) => Ok(Some(after)),
            Err(fault) => Err(fault),
        }
    }

    /// The same; a move in its usual spelling is read in one go.
    #[inline(always)]
    fn take_move<'a>(
        &mut self,
        alloc: Global,
        bytes: &'a [u8],
    ) -> Result<Option<&'a [u8]>, LineFault>
        ensures taken { IfOk result (λ left. MatchOption left (HasNoLf bytes.now × (self.new ≡ self.old)) (λ after. TakesLine self.old bytes.now after.now self.new)) }
        ensures stopped { IfErr result (λ fault. StopsAt self.old bytes.now self.new fault) }
    {
        let Some((placing, after)) = plain::moved(bytes) else {
            return self.take_any_line(alloc, bytes);
        };
        match self.moved(placing) {
            Ok(()) => Ok(Some(after)),
            Err(fault) => Err(fault),
        }
    }

    /// The same; an event in its usual spelling is read in one go too.
    #[inline(always)]
    pub(crate) fn take_line<'a>(
        &mut self,
        alloc: Global,
        bytes: &'a [u8],
    ) -> Result<Option<&'a [u8]>, LineFault>
        ensures taken { IfOk result (λ left. MatchOption left (HasNoLf bytes.now × (self.new ≡ self.old)) (λ after. TakesLine self.old bytes.now after.now self.new)) }
        ensures stopped { IfErr result (λ fault. StopsAt self.old bytes.now self.new fault) }
    {
        let Some((event, after)) = plain::event(bytes) else {
            return self.take_move(alloc, bytes);
        };
        match self.event(alloc, event) {
            Ok(()) => Ok(Some(after)),
            Err(fault) => Err(fault),
        }
    }

    /// Whether the last line was read.
    pub(crate) fn is_done(&self) -> bool
        ensures { IsTrue result ↔ (self.now.stage ≡ stages.Done) }
    {
        matches!(self.stage, Stage::Done)
    }

    /// The events.
    pub(crate) fn into_events(self) -> Vec<Event>
        ensures { result.items ≡ self.events }
    {
        self.events
    }
}
