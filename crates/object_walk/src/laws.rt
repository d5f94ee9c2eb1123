//! Laws of walks, each the contract of a function that does nothing: that it is accepted says that
//! the law holds, of every heap and of all words that stand for it.

ghost use Rattle.object_walk.specs.Laws.{PiecesAreDetermined, PagesOfHeapsAreLaidOut, WalksMeetTheObjects, ObjectsComeInOrder};

/// The words of a page are laid out in one way only.
pub fn pieces_are_determined()
    ensures { PiecesAreDetermined }
{}

/// Where words stand for a sound heap, each page of it can be walked.
pub fn pages_of_heaps_are_laid_out()
    ensures { PagesOfHeapsAreLaidOut }
{}

/// And the objects that a walk of a page finds are exactly the heap's objects that begin there.
pub fn walks_meet_the_objects()
    ensures { WalksMeetTheObjects }
{}

/// No object begins before the first of them, or between two that follow each other.
pub fn objects_come_in_order()
    ensures { ObjectsComeInOrder }
{}
