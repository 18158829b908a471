//! The limits of a build: its capacity, `MOST_*`, and within it the usual ranges, `USUAL_*`. Everything is proved for the whole capacity. C and Rust open registries up
//! to the capacity; Rattle programs and scripts, within the ranges. Code, definitions and proofs speak by these names; so do tests and texts, except those
//! that docs/RECIPES.md lists. A build with another capacity has to be proved like this one. `limits_law` says that it leaves room.

ghost use Rattle.registry_values.specs.Limits.{LimitsLeaveRoom};

/// The most CPUs that a registry may have. CPU numbers are `u8` and signed counts are summed over them, so at most 128.
pub const MOST_CPUS: usize = 64;

/// The most entries that a registry may hold at a time, and so the most slots. Slot numbers are `u8`, and one value more means none, so
/// at most 255.
pub const MOST_SLOTS: usize = 255;

/// The most changes that a registry's history may have room for: attaches and detaches together. An entry's number is at most this.
pub const MOST_CHANGES: u64 = 1 << 40;

/// The most outermost sections that a CPU may begin. Its section word grows by two for each, so at most 2^62.
pub const MOST_SECTIONS: u64 = 1 << 62;

/// The most passive references that a CPU may have to an entry, and the furthest that its net count of local ones may go.
pub const MOST_COUNT: u64 = 1 << 40;

/// How deep a section may be nested.
pub const MOST_DEPTH: u8 = 255;

/// The most CPUs that a registry of a Rattle program or of a script may have. This and the four limits that follow are the ranges of
/// `Settings::check`.
pub const USUAL_CPUS: usize = 8;

/// The most slots there.
pub const USUAL_SLOTS: usize = 32;

/// The most changes there.
pub const USUAL_CHANGES: u64 = 1_000_000;

/// The most outermost sections of a CPU there.
pub const USUAL_SECTIONS: u64 = 1 << 40;

/// The most passive references of a CPU to an entry there, and the furthest that its net count of local ones may go.
pub const USUAL_COUNT: u64 = 1 << 40;

/// Where counts begin: a count word in use is this plus the CPU's net count, and 0 once collected; a slot's total begins with it too. A CPU
/// may release what another acquired, so a net count may be below 0, though never by more than `MOST_COUNT` for each CPU. So a count word in
/// use is never 0, and the sum of all CPUs' words and the total fits 64 bits.
pub const BIAS: u64 = 1 << 48;

/// Theorem, no effect at run time: the capacity leaves room. Numbers that don't fit each other fail here.
pub fn limits_law()
    ensures { LimitsLeaveRoom }
{}
