//! The heap of a running script: real words, pages and cells, changed one event at a time. A
//! layer above learns that each call is one event of a lawful history of the World's program, and
//! that what the World keeps stands for the named heap which that history leaves.
#![tactic(auto)]

mod agreement;
mod all_passes;
mod allocating;
mod cell_commands;
mod cells;
mod collect_commands;
mod collecting;
mod committing;
mod counting;
mod due;
mod field_commands;
mod finalizer_commands;
mod inhibit_commands;
mod kept;
mod new_world;
mod one_pass;
mod page_commands;
mod parcels;
mod pin_commands;
mod pins;
mod plan;
mod raw_commands;
mod recalling;
mod recording;
mod referents;
mod rooting;
mod scratch;
mod stat_commands;
mod states;
mod table_commands;
mod weak_commands;
mod wishes;
mod world;

pub use allocating::Lent;
pub use collecting::CollectFault;
pub use heap_terms::Next;
pub use parcels::{Parcel, put_away_all};
pub use world::World;
