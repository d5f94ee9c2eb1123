//! Programs of seeds, beside what a second program made of the rules.

use super::*;
use heap_terms::{Cell, Command, Memory, Weakness};

#[test]
fn the_first_commands_of_a_seed(rt: HostRuntime) -> Result<(), Memory> {
    let program = generate(rt.alloc(), 1)?;
    assert!(rt; program.pages == 64 && program.auto == 4096);
    assert!(rt; program.threads.len() == 4 && program.schedule.len() == 0);
    for commands in program.threads.as_slice() {
        assert!(rt; commands.len() == 400);
    }
    let first = [
        Command::MakeNil { d: Cell::Stack(9) },
        Command::TableGet {
            d: Cell::Stack(6),
            c: Cell::Shared(10),
            k: Cell::Shared(3),
        },
        Command::NewTable {
            d: Cell::Exact(6),
            w: Weakness::KeyOrValue,
            b: 3,
        },
        Command::NewCons {
            d: Cell::Shared(2),
            a: Cell::Stack(12),
            b: Cell::Stack(0),
        },
    ];
    let commands = program.threads.as_slice();
    assert!(rt; !commands.is_empty());
    let made = commands[0].as_slice();
    assert!(rt; made.len() >= 4);
    for i in 0..4 {
        assert!(rt; made[i] == first[i]);
    }
    Ok(())
}
