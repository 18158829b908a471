//! What a storm counts.

ghost use Rattle.std.specs.Prelude.{◌≡◌, ◌+◌, ◌<◌, ◌≤◌, ◌^◌, IsTrue};
ghost use Rattle.registry_storm.specs.{IsJudged, AreAdded, AreDeedsAdded, IsAdded};

/// What all workers of a storm did together.
#[derive(Clone, Copy, Debug, PartialEq, Eq)]
pub struct StormSum {
    /// How many CPUs there were, each with a worker.
    pub cpus: u8,
    /// How many turns each worker made.
    pub turns: u32,
    /// How often `find` was called in them.
    pub lookups: u64,
    /// How many of the local references that the workers acquired in their turns were released.
    pub references: u64,
    /// How many answers weren't the one expected.
    pub wrong: u64,
    /// How many local references to the driver the audit at the end says are held.
    pub held: i64,
}

/// What was done in a storm, beside its sum. A storm of one CPU and `t` turns has one number of each.
#[derive(Clone, Copy, Debug, PartialEq, Eq)]
pub struct StormDeeds {
    /// How many lookups of the interface found one: of one CPU every second, the first among them.
    pub found: u64,
    /// How many interfaces were attached: of one CPU one in every second turn, the first among them.
    pub attached: u64,
    /// How many entries were freed: each interface that was attached, and the driver at the end.
    pub freed: u64,
    /// How many records were read by a reference: two in each turn of each worker.
    pub read: u64,
    /// How many local references a worker took out of a basket, where another CPU's worker had laid them: of one CPU none, of more at
    /// least one, and at most one a turn of each.
    pub handed: u64,
}

impl StormDeeds {
    /// Nothing was done.
    pub const NONE: StormDeeds = StormDeeds {
        found: 0,
        attached: 0,
        freed: 0,
        read: 0,
        handed: 0,
    };

    /// Adds what another worker did.
    pub fn add(&mut self, other: StormDeeds)
        ensures { AreDeedsAdded self.old other self.new }
    {
        self.found = added(self.found, other.found);
        self.attached = added(self.attached, other.attached);
        self.freed = added(self.freed, other.freed);
        self.read = added(self.read, other.read);
        self.handed = added(self.handed, other.handed);
    }
}

/// What one worker counts, or all of them.
#[derive(Clone, Copy, Debug, PartialEq, Eq)]
pub struct Counts {
    /// How often `find` was called.
    pub lookups: u64,
    /// How many local references were released.
    pub references: u64,
    /// How many answers weren't the one expected.
    pub wrong: u64,
    /// What was done beside.
    pub deeds: StormDeeds,
}

impl Counts {
    /// Nothing was counted.
    pub const NONE: Counts = Counts {
        lookups: 0,
        references: 0,
        wrong: 0,
        deeds: StormDeeds::NONE,
    };

    /// Counts a lookup.
    pub fn add_lookup(&mut self)
        requires { self.old.lookups < 2 ^ 63 }
        ensures lookups { self.new.lookups ≡ self.old.lookups + 1 }
        ensures others { (self.new.references ≡ self.old.references) × (self.new.wrong ≡ self.old.wrong) × (self.new.deeds ≡ self.old.deeds) }
    {
        self.lookups += 1;
    }

    /// Counts a local reference that was released.
    pub fn add_reference(&mut self)
        ensures references { IsAdded self.old.references 1 self.new.references }
        ensures others { (self.new.lookups ≡ self.old.lookups) × (self.new.wrong ≡ self.old.wrong) × (self.new.deeds ≡ self.old.deeds) }
    {
        self.references = added(self.references, 1);
    }

    /// Counts a wrong answer, and nothing for a right one.
    pub fn judge(&mut self, is_right: bool)
        ensures { IsJudged (IsTrue is_right) self.old self.new }
    {
        if !is_right {
            self.wrong = added(self.wrong, 1);
        }
    }

    /// Adds what another worker counted.
    pub fn add(&mut self, other: Counts)
        requires { self.old.lookups + other.lookups < 2 ^ 64 }
        ensures { AreAdded self.old other self.new }
    {
        self.lookups += other.lookups;
        self.references = added(self.references, other.references);
        self.wrong = added(self.wrong, other.wrong);
        self.deeds.add(other.deeds);
    }
}

/// Counts one more.
pub fn count(number: &mut u64)
    ensures { IsAdded number.old 1 number.new }
{
    *number = added(*number, 1);
}

/// The sum of two counts, or the greatest number where there is none.
fn added(a: u64, b: u64) -> u64
    ensures sum { IsAdded a b result }
    ensures least { (a ≤ result) × (b ≤ result) }
{
    a.saturating_add(b)
}
