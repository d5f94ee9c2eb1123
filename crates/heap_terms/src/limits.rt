//! The limits of scripts and heaps, each under its name. All of them are this project's own.

/// The pages of a heap: at least one and at most so many.
pub const MOST_PAGES: u32 = 1_024;

/// The words of a page.
pub const PAGE_WORDS: u32 = 512;

/// The words of a heap.
pub const MOST_WORDS: u32 = 524_288;

/// The threads of a script: at least one and at most so many.
pub const MOST_THREADS: u32 = 8;

/// The commands of a script, all its threads together.
pub const MOST_COMMANDS: u32 = 20_000;

/// The commands `gc` among them.
pub const MOST_GCS: u32 = 64;

/// The commits that may ask for a collection by `auto`.
pub const MOST_TRIGGERS: u32 = 64;

/// The turns of all schedules of a script.
pub const MOST_TURNS: u32 = 1_000_000;

/// The turns that one field of a schedule gives.
pub const MOST_TURNS_IN_A_ROW: u32 = 65_535;

/// The bytes of a script.
pub const MOST_BYTES: u32 = 4_194_304;

/// The words between two collections that `auto` may ask for, from a page to a heap of all pages.
pub const LEAST_AUTO: u32 = 512;

/// Likewise at most.
pub const MOST_AUTO: u32 = 524_288;

/// The elements of an object, and the index of one.
pub const MOST_ELEMENTS: u32 = 65_535;

/// The pairs for which a table has room: at least one and at most so many.
pub const MOST_PAIRS: u32 = 64;

/// The cells `s`, `b` and `g`, of each kind.
pub const CELLS: u32 = 16;

/// The cells `r` of a thread.
pub const RAW_CELLS: u32 = 8;

/// The pins of a thread.
pub const MOST_PINS: u32 = 32;

/// The oldest generation that `gc` collects, as in SBCL.
pub const OLDEST_COLLECTED: u8 = 5;

/// The oldest generation that there is, which is never collected.
pub const OLDEST_GENERATION: u8 = 6;
