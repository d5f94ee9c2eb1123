//! The word machine over a World: one turn at a time is one row of the table of phases.

ghost use Rattle.std.specs.Prelude.{◌≡◌, ◌↔◌, ◌<◌, length, replicate, OnErr, OnOk, IfOk, IsTrue};
ghost use Rattle.heap_terms.specs.declared.phases.Phase.{Phase};
ghost use Rattle.heap_terms.specs.declared.phases.Task.TheVariants as tasks;
ghost use Rattle.heap_terms.specs.MachineTurns.{is_due, machine_start, phase_of};
ghost use Rattle.heap_terms.specs.Phases.{task_at};
ghost use Rattle.heap_terms.specs.Valid.{IsValid};
ghost use Rattle.lisp_heap.specs.View.{View};
ghost use Rattle.machine_laws.specs.Laws.{IsAlone};
ghost use Rattle.machine_laws.specs.Orderly.{IsOrderly};
ghost use Rattle.replay_core.specs.MachineView.{program_of, configuration_of};
ghost use Rattle.heap_turns.specs.Parcels.{AreReady};
ghost use Rattle.replay_core.specs.Stepping.{AllEnded, EventDone, IsDone, IsWaiting, StepDone, Tells, TurnDone, lines_of};
ghost use Rattle.replay_core.specs.declared.machine.Stepped.TheVariants as stepped;

use crate::tables::{after_step, has_gone, release_from, task_for};
use heap_terms::{Memory, Phase, Program, Seq, StepAnswer, Task, WordLine, WordStep};
use heap_turns::{collect_alone, event};
use lisp_heap::{Parcel, World, put_away_all};
use pseudo_atomic::{StopState, word_step};
use std::alloc::Global;
use std::marker::Model;

/// What a turn did.
#[derive(Clone, Copy, Debug, PartialEq, Eq)]
pub enum Stepped {
    /// One step of the word machine.
    Word(WordLine),
    /// One event of the thread was appended to the history.
    Happened,
    /// The thread waits for another one.
    Waits,
    /// The thread has ended and has parked for the last time.
    Ended,
}

/// The phases of the threads, by the number of the thread.
type Phases = Seq<Phase>;

/// A World with the words and the phases of its threads, and a parcel for each. It has to be spent,
/// by [`Machine::into_world`].
pub struct Machine {
    world: World,
    stops: StopState,
    phases: Phases,
    parcels: Vec<Parcel>,
}

impl Model for Machine {
    ghost use Rattle.replay_core.specs.MachineView.{MachineView};

    ghost Value = { MachineView };

    ghost use Rattle.replay_core.specs.MachineSound.{view_of, IsSound};

    ghost view = { view_of };

    ghost invariant = { IsSound };
}

impl Machine {
    /// The machine of a valid program before its first turn: each thread is parked, and nobody
    /// holds the turn.
    pub fn new(alloc: Global, program: Program) -> Result<Machine, Memory>
        requires { IsValid program }
        ensures program { IfOk result (λ m. program_of m ≡ program) }
        ensures start { IfOk result (λ m. configuration_of m ≡ machine_start program) }
    {
        let threads = program.threads.len() as u32;
        let stops = StopState::new(alloc, threads)?;
        let phases = parked_phases(alloc, threads)?;
        let (world, parcels) = World::new(alloc, program)?;
        Ok(Machine {
            world,
            stops,
            phases,
            parcels,
        })
    }

    /// The World. It takes no memory.
    pub fn world(&self) -> &World
        ensures { result.now ≡ self.now.world }
    {
        &self.world
    }

    /// Spends the machine and puts its parcels away. It takes no memory.
    pub fn into_world(self) -> World
        ensures { result ≡ self.world }
    {
        let Machine {
            world,
            stops: _,
            phases: _,
            parcels,
        } = self;
        put_away_all(parcels);
        world
    }

    /// Whether every thread has ended and has parked for the last time. It takes no memory.
    pub(crate) fn has_ended(&self) -> bool
        ensures ended { IsTrue result ↔ AllEnded self.now }
        ensures valid { IsValid (program_of self.now) }
        ensures orderly { IsOrderly (program_of self.now) (configuration_of self.now) }
    {
        for t in 0..self.phases.len() {
            let Phase::Ended = self.phases.at(t) else {
                return false;
            };
        }
        true
    }

    /// One turn of thread t: what its phase says. For want of memory the machine is as it was, and
    /// the turn may be tried again.
    #[inline(always)]
    pub fn step(&mut self, t: u32) -> Result<Stepped, Memory>
        requires { t < length (program_of self.old).threads }
        ensures turn { IfOk result (λ done. TurnDone t (lines_of self.old done) self.old self.new) }

        // It waits just where it is parked with a stop in its word, or looks at a word that has no
        // bit for parked.
        ensures waits { IfOk result (λ done. (done ≡ stepped.Waits) ↔ IsWaiting (configuration_of self.old) t) }
        ensures ended { IfOk result (λ done. (done ≡ stepped.Ended) ↔ (phase_of (configuration_of self.old) t ≡ Phase.Ended)) }
        ensures err { OnErr result (self.new ≡ self.old) }
    {
        let phase = self.phases.at(t as usize);
        match task_for(phase, self.world.is_due(t)) {
            Task::Walk(step) => {
                let answer = self.walk(t, phase, step);
                Ok(told(t, step, answer))
            }
            Task::Happen => {
                self.happen(t, phase)?;
                Ok(Stepped::Happened)
            }
            Task::Rest => Ok(Stepped::Ended),
        }
    }

    /// The same turn, with an answer of one byte. The phases through which every command goes have
    /// ways of their own, in which the step is known.
    #[inline(always)]
    pub(crate) fn turn(&mut self, t: u32) -> Result<(), Memory>
        requires { t < length (program_of self.old).threads }
        ensures ok { OnOk result (IsDone t self.old self.new) }
        ensures err { OnErr result (self.new ≡ self.old) }
    {
        match self.phases.at(t as usize) {
            Phase::Inside => self.happens_inside(t),
            Phase::Leaving => {
                self.walks(t, Phase::Leaving, WordStep::Leave);
                Ok(())
            }
            Phase::Outside => self.begins(t),
            _ => self.rare_turn(t),
        }
    }

    /// The turn of a thread inside its section.
    #[inline(always)]
    fn happens_inside(&mut self, t: u32) -> Result<(), Memory>
        requires thread { t < length (program_of self.old).threads }
        requires inside { phase_of (configuration_of self.old) t ≡ Phase.Inside }
        ensures ok { OnOk result (IsDone t self.old self.new) }
        ensures err { OnErr result (self.new ≡ self.old) }
    {
        self.inside(t)
    }

    /// The turn of a thread outside: it claims the turn where a collection is due, and else enters.
    #[inline(always)]
    fn begins(&mut self, t: u32) -> Result<(), Memory>
        requires thread { t < length (program_of self.old).threads }
        requires outside { phase_of (configuration_of self.old) t ≡ Phase.Outside }
        ensures ok { OnOk result (IsDone t self.old self.new) }
        ensures err { OnErr result (self.new ≡ self.old) }
    {
        if self.world.is_due(t) {
            return self.rare_turn(t);
        }
        self.walks(t, Phase::Outside, WordStep::Enter);
        Ok(())
    }

    /// The turn of a thread that takes a word step.
    #[inline(always)]
    fn walks(&mut self, t: u32, phase: Phase, step: WordStep)
        requires thread { t < length (program_of self.old).threads }
        requires phase { phase_of (configuration_of self.old) t ≡ phase }
        requires task { task_at phase (is_due (program_of self.old) self.old.world.history t) ≡ tasks.Walk step }
        ensures { IsDone t self.old self.new }
    {
        let _answer = self.walk(t, phase, step);
    }

    /// A turn at any phase.
    #[cold]
    #[inline(never)]
    fn rare_turn(&mut self, t: u32) -> Result<(), Memory>
        requires { t < length (program_of self.old).threads }
        ensures ok { OnOk result (IsDone t self.old self.new) }
        ensures err { OnErr result (self.new ≡ self.old) }
    {
        let phase = self.phases.at(t as usize);
        match task_for(phase, self.world.is_due(t)) {
            Task::Walk(step) => {
                let _answer = self.walk(t, phase, step);
                Ok(())
            }
            Task::Happen => self.happen(t, phase),
            Task::Rest => Ok(()),
        }
    }

    /// One word step of thread t. It takes no memory.
    #[inline(always)]
    fn walk(&mut self, t: u32, phase: Phase, step: WordStep) -> StepAnswer
        requires thread { t < length (program_of self.old).threads }
        requires phase { phase_of (configuration_of self.old) t ≡ phase }
        requires task { task_at phase (is_due (program_of self.old) self.old.world.history t) ≡ tasks.Walk step }
        ensures { StepDone t step self.old self.new result }
    {
        let due = self.world.is_due(t);
        let over = self.world.has_ended(t);
        let threads = self.world.threads();
        let answer = word_step(&mut self.stops, t, step);
        let after = after_step(threads, t, phase, due, over, has_gone(answer));
        self.phases.set(t as usize, after);
        answer
    }

    /// One event of thread t.
    #[inline(always)]
    fn happen(&mut self, t: u32, phase: Phase) -> Result<(), Memory>
        requires thread { t < length (program_of self.old).threads }
        requires phase { phase_of (configuration_of self.old) t ≡ phase }
        requires task { task_at phase (is_due (program_of self.old) self.old.world.history t) ≡ tasks.Happen }
        ensures ok { OnOk result (EventDone t self.old self.new) }
        ensures err { OnErr result (self.new ≡ self.old) }
    {
        match phase {
            Phase::Collecting => self.collect(t),
            _ => self.inside(t),
        }
    }

    /// One event of thread t inside its section.
    #[inline(always)]
    fn inside(&mut self, t: u32) -> Result<(), Memory>
        requires thread { t < length (program_of self.old).threads }
        requires inside { phase_of (configuration_of self.old) t ≡ Phase.Inside }
        ensures ok { OnOk result (EventDone t self.old self.new) }
        ensures err { OnErr result (self.new ≡ self.old) }
    {
        let parcel = &mut self.parcels[t as usize];
        let stays = event(&mut self.world, parcel)?;
        if !stays {
            self.phases.set(t as usize, Phase::Leaving);
        }
        Ok(())
    }

    /// The collection of thread t, which is alone: nobody inhibits, and every parcel agrees.
    #[cold]
    #[inline(never)]
    fn collect(&mut self, t: u32) -> Result<(), Memory>
        requires thread { t < length (program_of self.old).threads }
        requires collecting { phase_of (configuration_of self.old) t ≡ Phase.Collecting }
        ensures ok { OnOk result (EventDone t self.old self.new) }
        ensures err { OnErr result (self.new ≡ self.old) }
    {
        collect_alone(&mut self.world, t, self.parcels.as_mut_slice())?;
        let threads = self.world.threads();
        self.phases.set(t as usize, release_from(threads, t, 0));
        Ok(())
    }
}

/// The phases at the start: each of the threads is parked.
fn parked_phases(alloc: Global, threads: u32) -> Result<Phases, Memory>
    ensures { IfOk result (λ phases. phases ≡ replicate threads Phase.Parked) }
{
    match vec![in alloc; Phase::Parked; threads as usize] {
        Ok(phases) => Ok(Seq::from_vec(phases)),
        Err(_) => Err(Memory),
    }
}

/// What a word step tells: that it waits, or its line.
#[inline(always)]
fn told(thread: u32, step: WordStep, answer: StepAnswer) -> Stepped
    ensures lines { Tells thread step answer result }
{
    match answer {
        StepAnswer::NotYet => Stepped::Waits,
        _ => Stepped::Word(WordLine {
            thread,
            step,
            answer,
        }),
    }
}
