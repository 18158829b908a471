//! The running registry for C: the exports of kupaldiz.h. Each is one call of `c_calls` or `c_handles`, and says its contract again.
#![tactic(auto)]

mod change_exports;
mod cpu_exports;
mod local_exports;
mod row_exports;
mod text_exports;
mod turn_exports;
mod usual_exports;
