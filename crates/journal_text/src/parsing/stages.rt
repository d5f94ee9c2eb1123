//! Where a line stands.

ghost use Rattle.std.specs.Prelude.{◌≡◌, nat_le, ◌&&◌};
ghost use Rattle.journal_text.specs.Builder.{is_open, rank};

/// What the lines so far have left open.
#[derive(Clone, Copy)]
pub(crate) enum Stage {
    /// Nothing: an event or the last line may come.
    Between,
    /// A collection: a pass, an event or the last line may come.
    Collecting,
    /// A pass, of which moves may still come, and all kinds after them.
    Moves,
    Pins,
    Culls,
    Breaks,
    Queued,
    Freed,
    /// The last line was read.
    Done,
}

impl Stage {
    /// How far a pass has come; 0 where none is open.
    fn rank(self) -> u8
        ensures { result ≡ rank self }
    {
        match self {
            Stage::Between | Stage::Collecting | Stage::Done => 0,
            Stage::Moves => 1,
            Stage::Pins => 2,
            Stage::Culls => 3,
            Stage::Breaks => 4,
            Stage::Queued => 5,
            Stage::Freed => 6,
        }
    }

    /// Whether a pass is open and has come no farther than this stage.
    pub(crate) fn is_open(self, last: Stage) -> bool
        ensures { result ≡ is_open self last }
    {
        self.rank() >= 1 && self.rank() <= last.rank()
    }
}
