//! The plain values of the registry: names, records and settings; why a call was refused; judgements of one slot, of the marks that a
//! keeper has of the CPUs, and of count words; and what a call returns by such values. Nothing here has a state.
#![tactic(auto)]

mod answer;
mod balance;
mod entry;
mod id;
mod limits;
mod mark;
mod name;
mod refusal;
mod settings;
mod slot;
mod stage;

pub use answer::{
    Room, attach_answer, detach_answer, enter_answer, given_entry, has_room, waiting_for, why_full,
    why_uncounted, why_unusable,
};
pub use balance::{Balance, less_bias, local_of, sum};
pub use entry::{Change, Entry, Kind, Record, is_iface, kind_word, record_from};
pub use id::{id_laws, id_of_name, name_of_id};
pub use limits::{
    BIAS, MOST_CHANGES, MOST_COUNT, MOST_CPUS, MOST_DEPTH, MOST_SECTIONS, MOST_SLOTS,
    USUAL_CHANGES, USUAL_COUNT, USUAL_CPUS, USUAL_SECTIONS, USUAL_SLOTS, limits_law,
};
pub use mark::{
    Mark, NO_MARK, are_clear, are_collected, cleared, collected, first_unseen, have_passed, is_out,
    is_some_collected, looked,
};
pub use name::{Name, NameFault, name_laws};
pub use refusal::Refusal;
pub use settings::Settings;
pub use slot::{
    Key, Slot, are_words_of, has_number, is_available, is_live, is_live_as, is_retired_as, key_of,
    retired_number,
};
pub use stage::{Stage, destroyed, settled};
