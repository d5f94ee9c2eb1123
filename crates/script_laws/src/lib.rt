//! Laws of the text of scripts. Each is the contract of a function that does nothing: that it is
//! accepted says that the law holds, of every program. Nothing of it runs.
#![tactic(auto)]

ghost use Rattle.script_laws.specs.Printed.{PrintedScriptsAreRead};

/// The text of a valid program is read as that program.
pub fn printed_scripts_are_read()
    ensures { PrintedScriptsAreRead }
{}
