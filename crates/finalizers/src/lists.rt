//! The list and the queue.

ghost use Rattle.std.specs.Prelude.{◌≡◌, ◌+◌, ◌-◌, ◌^◌, ◌<◌, ◌≤◌, [], ◌∷◌, ◌++◌, length, count_by, filter, not, vec_len, vec_capacity, OnOk, OnErr};
ghost use Rattle.finalizers.specs.Lists.{is_of};

use heap_terms::Memory;
use std::alloc::Global;
use std::marker::Model;

/// A finalizer of an object: the word that refers to the object, and the number that is queued once
/// the object is dead.
#[derive(Clone, Copy, Debug, PartialEq, Eq)]
pub struct Registration {
    /// The word of the object.
    pub object: u64,
    /// The number that the program gave.
    pub id: u32,
}

/// The finalizers of all objects, and the queue. Contracts see two lists: the registrations in their
/// order, and the numbers that are queued, the oldest first. There is always room in the queue for
/// all that is registered. That the list keeps no object alive, and its order, is the project's own;
/// what is asked of it follows SBCL's `finalize` and `cancel-finalization`.
#[derive(Drop)]
pub struct Finalizers {
    pub(crate) registered: Vec<Registration>,
    pub(crate) queue: Vec<u32>,
}

impl Model for Finalizers {
    ghost use Rattle.finalizers.specs.Lists.{Lists};

    ghost Value = { Lists };

    ghost use Rattle.finalizers.specs.Room.{lists_of, HasRoom};

    ghost view = { lists_of };

    ghost invariant = { HasRoom };
}

impl Finalizers {
    /// No finalizers, and an empty queue. It takes no memory.
    pub fn new(alloc: Global) -> Finalizers
        ensures { result ≡ record { registered = []; queue = [] } }
    {
        Finalizers {
            registered: Vec::new(alloc),
            queue: Vec::new(alloc),
        }
    }

    /// Registers a number for an object, as the last one. An object may have several, and one number
    /// more than once. It takes room in the queue too, so that nothing later does. It is refused only
    /// for want of memory, and then nothing changes.
    pub fn add(&mut self, object: u64, id: u32) -> Result<(), Memory>
        requires { length self.old.registered + length self.old.queue < 2 ^ 32 - 1 }
        ensures ok { OnOk result (self.new ≡ record { registered = self.old.registered ++ record { object = object; id = id } ∷ []; queue = self.old.queue }) }
        ensures err { OnErr result (self.new ≡ self.old) }
    {
        self.queue.reserve(self.registered.len() + 1)?;
        self.registered.push(Registration { object, id })?;
        Ok(())
    }

    /// Takes all that is registered for an object off the list, and says how many these were. What
    /// is queued stays. It takes no memory.
    pub fn cancel(&mut self, object: u64) -> u32
        ensures count { result ≡ count_by (is_of object) self.old.registered }
        ensures lists { self.new ≡ record { registered = filter (λ r. not (is_of object r)) self.old.registered; queue = self.old.queue } }
    {
        let before = self.registered.len();
        remove_all(&mut self.registered, object);
        (before - self.registered.len()) as u32
    }

    /// How many finalizers are registered.
    pub fn len(&self) -> u32
        ensures { result ≡ length self.now.registered }
    {
        self.registered.len() as u32
    }

    /// How many numbers are queued.
    pub fn queue_len(&self) -> u32
        ensures { result ≡ length self.now.queue }
    {
        self.queue.len() as u32
    }

    /// Moves the queue to the end of a list that has room for it. It takes no memory.
    pub fn take_queue(&mut self, into: &mut Vec<u32>)
        requires { vec_len into.old + length self.old.queue ≤ vec_capacity into.old }
        ensures taken { into.new.items ≡ into.old.items ++ self.old.queue }
        ensures left { self.new ≡ record { registered = self.old.registered; queue = [] } }
    {
        into.append(&mut self.queue).unwrap();
    }
}

/// Takes all that is registered for an object out of a list.
fn remove_all(registered: &mut Vec<Registration>, object: u64)
    ensures items { registered.new.items ≡ filter (λ r. not (is_of object r)) registered.old.items }
    ensures count { vec_len registered.new + count_by (is_of object) registered.old.items ≡ vec_len registered.old }
{
    registered.retain(|r| r.object != object);
}
