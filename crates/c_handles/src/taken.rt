//! What is taken out of a local reference's handle.

use crate::local_body::LocalBody;
use std::alloc::Global;
use std_alloc::room::Vacant;

/// What is taken out of a handle. From one that had nothing: nothing. From a copied one: a share of the reference, which others
/// have still. Else the reference, and its block.
pub enum LocalTaken {
    Nothing,
    Share,
    Reference(LocalBody, Vacant<LocalBody, Global>),
}
