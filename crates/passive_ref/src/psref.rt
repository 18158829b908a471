//! A passive reference that is held.

ghost use Rattle.std.specs.Prelude.{◌≡◌};

use std::marker::Model;

/// A passive reference (psref(9)), of the CPU that acquired it to one entry. It can't be dropped and can't be cloned: it is spent by
/// `release`, or by `forget`, which leaves the reference held. The value is two numbers, and `remembered` makes it of any two: what counts is
/// what its CPU holds. It says nothing of its registry: a CPU of another one judges it by its own references to that number.
pub struct Psref {
    pub(crate) cpu: u8,
    /// The slot, from 0, that its CPU looks at first. It is a guess: any other number is as safe, and costs the search. To a contract it
    /// isn't there.
    pub(crate) hint: u8,
    pub(crate) number: u64,
}

impl Model for Psref {
    ghost use Rattle.passive_ref.specs.{OnPsref};

    ghost Value = { OnPsref };

    ghost view = { λ p. record { cpu = p.cpu; number = p.number } };
}

impl Psref {
    /// The CPU, from 0, that it was acquired on, and on which it is released.
    pub fn cpu(&self) -> u8
        ensures { result ≡ self.now.cpu }
    {
        self.cpu
    }

    /// The number, from 1, of the entry that it is to.
    pub fn number(&self) -> u64
        ensures { result ≡ self.now.number }
    {
        self.number
    }

    /// The reference that a CPU has to that number, from what `cpu` and `number` said of one that was forgotten. It is only as good as they
    /// are: the CPU judges it by its own references to that number.
    pub fn remembered(cpu: u8, number: u64) -> Psref
        ensures { result ≡ record { cpu = cpu; number = number } }
    {
        Psref::at(cpu, number, 0)
    }

    /// The same, whose CPU looks at the slot `hint` first.
    pub fn at(cpu: u8, number: u64, hint: u8) -> Psref
        ensures { result ≡ record { cpu = cpu; number = number } }
    {
        Psref { cpu, hint, number }
    }

    /// The slot that its CPU looks at first: for a reference just acquired, its entry's.
    pub fn hint(&self) -> u8 {
        self.hint
    }

    /// Gives the value up and leaves the reference held: the entry keeps its slot until its CPU releases one that `remembered` made again.
    pub fn forget(self) {
        let Psref {
            cpu: _,
            hint: _,
            number: _,
        } = self;
    }
}
