//! The atomic operations by each kind of seat. The caller of each says which event of the protocol it is.

pub(crate) mod by_seat;
pub(crate) mod ended;
pub(crate) mod given_up;
pub(crate) mod hearing;
pub(crate) mod in_hand;
pub(crate) mod kept;
pub(crate) mod notes;
pub(crate) mod seats;
