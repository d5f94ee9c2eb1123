//! Laws of single commands: what a user expects of them.

ghost use Rattle.heap_laws.specs.CommandLaws.{FieldsHoldWhatWasPut, PutsLeaveTheRest, NewConsesHoldTheirOperands, NamesAreFresh, RefusalsChangeNothing};

/// After a `put` that is answered `ok`, a `get` of that field is answered the value that was put:
/// by whatever thread, through whatever cell that holds the same object.
pub fn fields_hold_what_was_put()
    ensures { FieldsHoldWhatWasPut }
{}

/// A `put`, done or refused, leaves every other field, every other object, every cell, every pin
/// and every page as it was; and the object keeps its kind and its place.
pub fn puts_leave_the_rest()
    ensures { PutsLeaveTheRest }
{}

/// A new cons has the name and the index of its answer and holds what its operands held before,
/// and the destination refers to it.
pub fn new_conses_hold_their_operands()
    ensures { NewConsesHoldTheirOperands }
{}

/// The commits of a history give the names 0, 1, 2 and so on, and no other names are there: so a
/// name that is given was no name before, and no later commit is given it again.
pub fn names_are_fresh()
    ensures { NamesAreFresh }
{}

/// A command that is refused changes no cell, no object and no page: its thread is one command
/// further, and that is all.
pub fn refusals_change_nothing()
    ensures { RefusalsChangeNothing }
{}
