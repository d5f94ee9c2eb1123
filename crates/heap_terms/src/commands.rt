//! The commands of a script.

use crate::cells::{Cell, Raw};
use crate::kinds::Weakness;
use crate::lists::Seq;

/// One command of a thread. The number of a cell is at most 15, that of a raw cell at most 7.
/// Where a cell is both destination and operand the operand's old value counts. The commands are
/// this project's own; what weak pointers, weak tables and finalizers keep follows SBCL's manual.
#[derive(Debug, PartialEq, Eq, Clone, Copy)]
pub enum Command {
    /// `fix d n`: d becomes the fixnum n.
    Fix { d: Cell, n: i64 },
    /// `nil d`: d becomes NIL.
    MakeNil { d: Cell },
    /// `move d c`: d becomes the value of c.
    Move { d: Cell, c: Cell },
    /// `cons d a b`: d becomes a new cons of a and b.
    NewCons { d: Cell, a: Cell, b: Cell },
    /// `vector d n`: d becomes a new vector of n fields, each the fixnum 0.
    NewVector { d: Cell, n: u32 },
    /// `instance d n`: likewise an instance.
    NewInstance { d: Cell, n: u32 },
    /// `closure d n`: likewise a closure.
    NewClosure { d: Cell, n: u32 },
    /// `words d n w`: d becomes a new object of n raw words, each w.
    NewWords { d: Cell, n: u32, w: u64 },
    /// `weak d c`: d becomes a new weak pointer to the value of c.
    NewWeak { d: Cell, c: Cell },
    /// `table d W B`: d becomes a new empty table of weakness w for b pairs.
    NewTable { d: Cell, w: Weakness, b: u32 },
    /// `get d c i`: d becomes field i of the object in c.
    Get { d: Cell, c: Cell, i: u32 },
    /// `put c i a`: field i of the object in c becomes the value of a.
    Put { c: Cell, i: u32, a: Cell },
    /// `rawget r c i`: r becomes raw word i of the object in c.
    RawGet { r: Raw, c: Cell, i: u32 },
    /// `rawput c i r`: raw word i of the object in c becomes r.
    RawPut { c: Cell, i: u32, r: Raw },
    /// `eq a b`: whether a and b hold the same value.
    Same { a: Cell, b: Cell },
    /// `show c`: the value of c.
    Show { c: Cell },
    /// `addr r c`: r becomes the word of the value of c.
    Addr { r: Raw, c: Cell },
    /// `raw r w`: r becomes w.
    SetRaw { r: Raw, w: u64 },
    /// `add r k`: r becomes r + k modulo 2^64.
    AddRaw { r: Raw, k: i64 },
    /// `pin c`: the word of the value of c goes on the thread's pins, of which it has at most 32.
    Pin { c: Cell },
    /// `unpin`: the last pin is taken off.
    Unpin,
    /// `weakval d c`: d becomes the value of the weak pointer in c, or NIL where it is broken.
    WeakVal { d: Cell, c: Cell },
    /// `tput c k v`: the table in c maps k to v.
    TablePut { c: Cell, k: Cell, v: Cell },
    /// `tget d c k`: d becomes what the table in c maps k to, or NIL.
    TableGet { d: Cell, c: Cell, k: Cell },
    /// `trem c k`: the pair of k leaves the table in c.
    TableRem { c: Cell, k: Cell },
    /// `tcount c`: the number of pairs of the table in c.
    TableCount { c: Cell },
    /// `finalize c id`: id is queued once the object in c is dead.
    Finalize { c: Cell, id: u32 },
    /// `cancel c`: all finalizers of the object in c are taken off the list.
    Cancel { c: Cell },
    /// `runfin`: the queue of finalizers is run and emptied.
    RunFinalizers,
    /// `gc g`: the thread owes a collection of the generations up to g.
    Collect { g: u8 },
    /// `nogc`: the thread's inhibit count rises by one.
    Inhibit,
    /// `gcok`: it falls by one.
    Allow,
    /// `page p`: what stands on page p.
    ShowPage { p: u32 },
    /// `stat g`: the numbers of generation g that the policy reads.
    Stat { g: u8 },
}

/// The commands of one thread, in their order.
pub type Commands = Seq<Command>;
