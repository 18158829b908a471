//! What crosses between C and a call: plain values, the places and rows of C's that a call reads and writes, and what it returns with them.
//! And the calls that need no more: a name from bytes or from an id, and the text of a number.

pub mod answer;
pub mod given;
pub mod place;
pub mod plain;
pub mod rows;
pub mod texts;
pub mod wait;
