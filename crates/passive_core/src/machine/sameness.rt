//! Whether two cores show the same state.

ghost use Rattle.std.specs.Prelude.{◌≡◌, ◌↔◌, true};
ghost use Rattle.std.specs.Bool.{Decides};
ghost use Rattle.passive_core.specs.Making.{HaveSameCounts, HaveSameCpus, HaveSameSearches, HaveSameSections, HaveSameSlots};

use crate::machine::Core;

impl Core {
    /// Whether both cores show the same state: settings, words and history, and all that is known of each CPU, slot, mark
    /// and reference. The memory that their lists have is no part of it.
    pub fn is_same(&self, other: &Core) -> bool
        ensures { result ≡ true ↔ self.now ≡ other.now }
    {
        self.settings == other.settings
            && self.due == other.due
            && self.has_same_slots(other)
            && self.has_same_counts(other)
            && self.has_same_cpus(other)
    }

    /// Whether the list, the slots, their marks, the history and the live words are the same.
    fn has_same_slots(&self, other: &Core) -> bool
        ensures { Decides result (HaveSameSlots self.now other.now) }
    {
        self.head == other.head
            && are_same(&self.next, &other.next)
            && are_same(&self.rows, &other.rows)
            && are_same(&self.slots, &other.slots)
            && are_same(&self.marks, &other.marks)
            && are_same(&self.history, &other.history)
            && are_same(&self.lives, &other.lives)
    }

    /// Whether what counts references, and the local references, are the same.
    fn has_same_counts(&self, other: &Core) -> bool
        ensures { Decides result (HaveSameCounts self.now other.now) }
    {
        are_same(&self.passive, &other.passive)
            && are_same(&self.counts, &other.counts)
            && are_same(&self.totals, &other.totals)
            && are_same(&self.nets, &other.nets)
            && are_same(&self.keeps, &other.keeps)
            && are_same(&self.locals, &other.locals)
    }

    /// Whether the sections of the CPUs, their searches and hands are the same.
    fn has_same_cpus(&self, other: &Core) -> bool
        ensures { Decides result (HaveSameCpus self.now other.now) }
    {
        self.seated == other.seated
            && self.has_same_sections(other)
            && self.has_same_searches(other)
    }

    fn has_same_sections(&self, other: &Core) -> bool
        ensures { Decides result (HaveSameSections self.now other.now) }
    {
        are_same(&self.section, &other.section)
            && are_same(&self.begins, &other.begins)
            && are_same(&self.depths, &other.depths)
            && are_same(&self.seen, &other.seen)
    }

    fn has_same_searches(&self, other: &Core) -> bool
        ensures { Decides result (HaveSameSearches self.now other.now) }
    {
        are_same(&self.searches, &other.searches)
            && are_same(&self.found, &other.found)
            && are_same(&self.hands, &other.hands)
    }
}

/// Whether two lists have the same items, where `==` of two items tells whether they are the same.
fn are_same<T: PartialEq>(a: &[T], b: &[T]) -> bool
    requires exact { (x y : T) → Decides (T.eq x y) (x ≡ y) }
    ensures { Decides result (a.now ≡ b.now) }
{
    a == b
}
