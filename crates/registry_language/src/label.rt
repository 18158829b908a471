//! The labels of references.

/// One of the letters `a` to `z`.
#[derive(Clone, Copy, Debug, PartialEq, Eq)]
pub struct Label {
    /// 0 for `a` to 25 for `z`.
    pub place: u8,
}
