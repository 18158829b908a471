//! One function for each kind of step, named after its event, or after what it stores or looks at.
//!
//! Each makes exactly its event of the core, with one seat, and takes no memory. The seat's log goes on with that event and its reply, and
//! what the seat has heard stays (`step`). Exceptions:
//!
//! - two make two events: `seek` begins the search and loads its first link, and `vacate` makes a slot vacant and hears;
//! - the two that hear say in clauses of their own what the seat has heard then.
//!
//! A step on one of a CPU's own words takes the CPU's row in place of its number. Condition: the row is
//! of a table with as many slots as this one (`row`), as `Row::of` makes it.

pub mod drain;
pub mod grace;
pub mod keeping;
pub mod list;
pub mod locals;
pub mod notes;
pub mod passive;
pub mod publishing;
pub mod reading;
pub mod recalls;
pub mod search;
pub mod seats;
pub mod sections;
pub mod tries;
pub mod vacating;

pub use drain::{collect, join_keeper, kept_sub, passive_look, total_add, total_sub};
pub use grace::{look, look_now, snapshot, snapshot_now};
pub use keeping::keep;
pub use list::{store_count, store_next, store_record};
pub use locals::{count_add, count_down, join_ref, split_back, split_ref};
pub use notes::{hear, hear_keeper, tell, tell_keeper};
pub use passive::{load_passive, passive_add, passive_sub};
pub use publishing::{hide, publish, republish, show, unpublish};
pub use reading::load_local;
pub use recalls::{recall, recall_head, refind};
pub use search::{load_compared, load_link, load_searched, seek};
pub use seats::seat;
pub use sections::{enter, exit};
pub use tries::{begin_try, end_try, take_back};
pub use vacating::vacate;
