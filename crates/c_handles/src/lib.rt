//! For C: values on the heap by their pointers (`heap`), what crosses between C and a call (`values`), what C's handles point to between calls: a CPU, the
//! keeper, a local reference; and the handles, one by one and in rows.
#![tactic(auto)]

pub mod answer;
mod copy_body;
mod cpu_body;
pub mod handle;
pub mod heap;
mod keeper_body;
pub mod keeper_place;
mod local_body;
pub mod local_handle;
pub mod rows;
pub mod taken;
pub mod values;

pub use copy_body::CopyBody;
pub use cpu_body::CpuBody;
pub use keeper_body::KeeperBody;
pub use local_body::LocalBody;
