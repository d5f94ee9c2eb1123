//! Which program a lock knows.

use std::marker::Brand;

/// The name of a program, which exists in contracts alone. The type of what the lock keeps has such
/// a name, so whoever takes the lock knows which program the World runs.
pub(crate) trait Naming {
    ghost use Rattle.heap_terms.specs.declared.programs.Program.{Program};

    ghost program: { Program };
}

/// Each call of a function over a name picks the program.
impl Naming for Brand {
    ghost use Rattle.thread_scripts.specs.Names.{no_program};

    ghost program = { no_program };
}
