//! Laws of the words that stand for objects.

ghost use Rattle.heap_laws.specs.WordLaws.{SlotsAreSpelled, SlotsAreItsWords, HeadersLead};

/// What a region builds is the words of the object's slots, with fixnum 0 where look-up keeps a
/// word for itself; and words that are so stand for the object, and no others do.
pub fn slots_are_spelled()
    ensures { SlotsAreSpelled }
{}

/// An object has as many slots as it takes words.
pub fn slots_are_its_words()
    ensures { SlotsAreItsWords }
{}

/// The first word of every object but a cons is its header.
pub fn headers_lead()
    ensures { HeadersLead }
{}
