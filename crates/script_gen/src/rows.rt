//! The commands, a row for each number that decides. Fields are drawn from left to right, as they
//! stand in the command.

ghost use Rattle.std.specs.Prelude.{◌≡◌, ◌+◌, ◌<◌, ◌≤◌};
ghost use Rattle.heap_terms.specs.Generated.{cell_drawn, collects, command_of, draw, drawn, raw_drawn, weakness_numbered};
ghost use Rattle.heap_terms.specs.declared.commands.Command.TheVariants.{MakeNil, Move, NewCons, NewVector, NewInstance, NewWords, NewWeak, NewTable, Get, Put, Addr, TablePut, TableGet, Finalize};
ghost use Rattle.script_gen.specs.Drawing.{IsDrawn};

use crate::draws::Draws;
use heap_terms::Command;

/// How many `gc` a program has at most.
pub(crate) const MOST_GENERATED_GCS: u32 = 16;

impl Draws {
    /// The command of a number below 20, where so many `gc` come before it.
    pub(crate) fn command(&mut self, gcs: u32, number: u32) -> Command
        requires { number < 20 }
        ensures { IsDrawn (command_of gcs self.old.state number) result self.old.state self.new.state }
    {
        match number {
            0..=5 => self.cons(),
            6 => self.vector(),
            7 => self.instance(),
            8 => self.words(),
            9 => self.weak(),
            10 => self.table(),
            11 => self.get(),
            12 => self.put(),
            13 => self.move_cell(),
            14 => self.nil(),
            15 => self.table_put(),
            16 => self.table_get(),
            17 => self.addr(),
            18 => self.finalize(),
            _ => self.collect_or_compare(gcs),
        }
    }

    /// `cons d a b`.
    fn cons(&mut self) -> Command
        ensures { IsDrawn (drawn (NewCons (cell_drawn self.old.state 1) (cell_drawn self.old.state 2) (cell_drawn self.old.state 3)) 3)
            result self.old.state self.new.state }
    {
        let d = self.cell();
        let a = self.cell();
        let b = self.cell();
        Command::NewCons { d, a, b }
    }

    /// `vector d n`, n below 64.
    fn vector(&mut self) -> Command
        ensures { IsDrawn (drawn (NewVector (cell_drawn self.old.state 1) (draw self.old.state 2 64)) 2)
            result self.old.state self.new.state }
    {
        let d = self.cell();
        let n = self.below(64);
        Command::NewVector { d, n }
    }

    /// `instance d n`, n below 16.
    fn instance(&mut self) -> Command
        ensures { IsDrawn (drawn (NewInstance (cell_drawn self.old.state 1) (draw self.old.state 2 16)) 2)
            result self.old.state self.new.state }
    {
        let d = self.cell();
        let n = self.below(16);
        Command::NewInstance { d, n }
    }

    /// `words d n w`, n below 32 and w below 1,000.
    fn words(&mut self) -> Command
        ensures { IsDrawn (drawn (NewWords (cell_drawn self.old.state 1) (draw self.old.state 2 32) (draw self.old.state 3 1000)) 3)
            result self.old.state self.new.state }
    {
        let d = self.cell();
        let n = self.below(32);
        let w = u64::from(self.below(1000));
        Command::NewWords { d, n, w }
    }

    /// `weak d c`.
    fn weak(&mut self) -> Command
        ensures { IsDrawn (drawn (NewWeak (cell_drawn self.old.state 1) (cell_drawn self.old.state 2)) 2)
            result self.old.state self.new.state }
    {
        let d = self.cell();
        let c = self.cell();
        Command::NewWeak { d, c }
    }

    /// `table d W B`, B from 1 to 8.
    fn table(&mut self) -> Command
        ensures { IsDrawn (drawn (NewTable (cell_drawn self.old.state 1) (weakness_numbered (draw self.old.state 2 5)) (1 + draw self.old.state 3 8)) 3)
            result self.old.state self.new.state }
    {
        let d = self.cell();
        let w = self.weakness();
        let b = 1 + self.below(8);
        Command::NewTable { d, w, b }
    }

    /// `get d c i`, i below 2.
    fn get(&mut self) -> Command
        ensures { IsDrawn (drawn (Get (cell_drawn self.old.state 1) (cell_drawn self.old.state 2) (draw self.old.state 3 2)) 3)
            result self.old.state self.new.state }
    {
        let d = self.cell();
        let c = self.cell();
        let i = self.below(2);
        Command::Get { d, c, i }
    }

    /// `put c i a`, i below 2.
    fn put(&mut self) -> Command
        ensures { IsDrawn (drawn (Put (cell_drawn self.old.state 1) (draw self.old.state 2 2) (cell_drawn self.old.state 3)) 3)
            result self.old.state self.new.state }
    {
        let c = self.cell();
        let i = self.below(2);
        let a = self.cell();
        Command::Put { c, i, a }
    }

    /// `move d c`.
    fn move_cell(&mut self) -> Command
        ensures { IsDrawn (drawn (Move (cell_drawn self.old.state 1) (cell_drawn self.old.state 2)) 2)
            result self.old.state self.new.state }
    {
        let d = self.cell();
        let c = self.cell();
        Command::Move { d, c }
    }

    /// `nil d`.
    fn nil(&mut self) -> Command
        ensures { IsDrawn (drawn (MakeNil (cell_drawn self.old.state 1)) 1) result self.old.state self.new.state }
    {
        let d = self.cell();
        Command::MakeNil { d }
    }

    /// `tput c k v`.
    fn table_put(&mut self) -> Command
        ensures { IsDrawn (drawn (TablePut (cell_drawn self.old.state 1) (cell_drawn self.old.state 2) (cell_drawn self.old.state 3)) 3)
            result self.old.state self.new.state }
    {
        let c = self.cell();
        let k = self.cell();
        let v = self.cell();
        Command::TablePut { c, k, v }
    }

    /// `tget d c k`.
    fn table_get(&mut self) -> Command
        ensures { IsDrawn (drawn (TableGet (cell_drawn self.old.state 1) (cell_drawn self.old.state 2) (cell_drawn self.old.state 3)) 3)
            result self.old.state self.new.state }
    {
        let d = self.cell();
        let c = self.cell();
        let k = self.cell();
        Command::TableGet { d, c, k }
    }

    /// `addr r c`.
    fn addr(&mut self) -> Command
        ensures { IsDrawn (drawn (Addr (raw_drawn self.old.state 1) (cell_drawn self.old.state 2)) 2)
            result self.old.state self.new.state }
    {
        let r = self.raw();
        let c = self.cell();
        Command::Addr { r, c }
    }

    /// `finalize c id`, id below 1,000.
    fn finalize(&mut self) -> Command
        ensures { IsDrawn (drawn (Finalize (cell_drawn self.old.state 1) (draw self.old.state 2 1000)) 2)
            result self.old.state self.new.state }
    {
        let c = self.cell();
        let id = self.below(1000);
        Command::Finalize { c, id }
    }

    /// `gc g`, g below 3, for one of four where there are not enough `gc` yet, and else `eq a b`.
    fn collect_or_compare(&mut self, gcs: u32) -> Command
        ensures { IsDrawn (collects gcs self.old.state) result self.old.state self.new.state }
    {
        let quarter = self.below(4);
        if quarter == 0 && gcs < MOST_GENERATED_GCS {
            let g = self.below(3) as u8;
            return Command::Collect { g };
        }
        let a = self.cell();
        let b = self.cell();
        Command::Same { a, b }
    }
}
