//! What a command wants made.

ghost use Rattle.std.specs.Prelude.{◌≡◌};
ghost use Rattle.std.specs.Option.{ForSome};
ghost use Rattle.heap_terms.specs.Layout as layout;
ghost use Rattle.heap_terms.specs.Regions.{destination_of, wish_of};
ghost use Rattle.heap_terms.specs.Valid.{IsInRange};
ghost use Rattle.lisp_heap.specs.ParcelView.{IsMaking};
ghost use Rattle.lisp_heap.specs.Wishes.{wish_for};

use crate::parcels::Making;
use heap_terms::{Cell, Command, Kind, Weakness};

/// The number of a weakness, which is a table's seed.
fn weakness_number(weakness: Weakness) -> u64
    ensures { result ≡ layout.weakness_number weakness }
{
    match weakness {
        Weakness::Strong => 0,
        Weakness::Key => 1,
        Weakness::Value => 2,
        Weakness::KeyAndValue => 3,
        Weakness::KeyOrValue => 4,
    }
}

/// An object of a kind with n words of payload and a seed.
#[inline(always)]
fn making(kind: Kind, n: u32, seed: u64) -> Making
    ensures { result ≡ record { kind = kind; n = n; seed = seed } }
{
    Making { kind, n, seed }
}

/// The object that a command wants made; none for a command that allocates nothing.
#[inline(always)]
pub fn wish(command: Command) -> Option<Making>
    requires { IsInRange command }
    ensures wish { wish_for result ≡ wish_of command }
    ensures making { ForSome result (λ m. IsMaking m.kind m.n m.seed) }
{
    match command {
        Command::NewCons { .. } => Some(making(Kind::Cons, 2, 0)),
        Command::NewVector { n, .. } => Some(making(Kind::Vector, n, 0)),
        Command::NewInstance { n, .. } => Some(making(Kind::Instance, n, 0)),
        Command::NewClosure { n, .. } => Some(making(Kind::Closure, n, 0)),
        Command::NewWords { n, w, .. } => Some(making(Kind::Words, n, w)),
        Command::NewWeak { .. } => Some(making(Kind::Weak, 1, 0)),
        Command::NewTable { w, b, .. } => Some(making(Kind::Table, 3 + 4 * b, weakness_number(w))),
        _ => None,
    }
}

/// The cell in which a command puts its new object; none for a command that allocates nothing.
pub fn destination(command: Command) -> Option<Cell>
    ensures { result ≡ destination_of command }
{
    match command {
        Command::NewCons { d, .. }
        | Command::NewVector { d, .. }
        | Command::NewInstance { d, .. }
        | Command::NewClosure { d, .. }
        | Command::NewWords { d, .. }
        | Command::NewWeak { d, .. }
        | Command::NewTable { d, .. } => Some(d),
        _ => None,
    }
}
