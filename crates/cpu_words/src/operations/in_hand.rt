//! How a CPU's seat is cut in two as a reference leaves its hand, and takes a reference's seat into it.

use crate::view::Logged;
use atomic_table::{Join, Split};

/// A local reference in a CPU's hand.
pub(crate) struct InHandReference;

impl Split<Logged> for InHandReference {
    ghost use Rattle.cpu_words.specs.Locals.{with_empty_hand, reference_of_hand};
    ghost use Rattle.cpu_words.specs.Logs.{logged_after_split, fresh, no_log, no_teller, cuts_off};

    ghost left = { logged_after_split with_empty_hand cuts_off };

    ghost right = { fresh reference_of_hand no_log no_teller };
}

impl Join<Logged> for InHandReference {
    ghost use Rattle.cpu_words.specs.Locals.{with_reference_in_hand};
    ghost use Rattle.cpu_words.specs.Logs.{joined_seat, spent_seat, takes_in};

    ghost both = { joined_seat with_reference_in_hand takes_in };

    ghost spent = { spent_seat };
}
