//! A local reference that the keeper's seat takes in, to give it up.

use crate::view::Logged;
use atomic_table::Join;

/// The reference's seat is joined into the keeper's, and is spent.
pub(crate) struct GivenUp;

impl Join<Logged> for GivenUp {
    ghost use Rattle.cpu_words.specs.Draining.{with_given_up};
    ghost use Rattle.cpu_words.specs.Logs.{joined_seat, spent_seat, gives_up};

    ghost both = { joined_seat with_given_up gives_up };

    ghost spent = { spent_seat };
}
