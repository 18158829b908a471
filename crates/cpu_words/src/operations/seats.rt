//! How the keeper's seat is cut in two as a CPU gets its seat.

use crate::view::Logged;
use atomic_table::Split;

/// The seat of the lowest-numbered CPU without one.
pub(crate) struct NextSeat;

impl Split<Logged> for NextSeat {
    ghost use Rattle.cpu_words.specs.Seats.{with_cpu_seated, next_seat};
    ghost use Rattle.cpu_words.specs.Logs.{logged_after_split, fresh, no_log, no_teller, seats_next};

    ghost left = { logged_after_split with_cpu_seated seats_next };

    ghost right = { fresh next_seat no_log no_teller };
}
