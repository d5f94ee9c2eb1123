//! What the end of a pass's tracing comes to. Nothing of it runs: what a copier has settled is what is
//! live, and its moves and pins tell a lawful record of a pass.
#![tactic(auto)]

ghost use Rattle.trace_laws.specs.Ends.{TracesEnd};

/// Where tracing has ended, there is a record of a lawful pass that the copier's moves and pins tell.
/// What remains after that pass is what is settled, and its words are those that stand there now.
pub fn traces_end()
    ensures { TracesEnd }
{}
