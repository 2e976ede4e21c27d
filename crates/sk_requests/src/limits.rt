//! How large a request may be.

/// How large a request may be.
#[derive(Clone, Copy, Debug, PartialEq, Eq)]
pub struct Limits {
    /// The words of a request.
    pub words: usize,
    /// The bytes of its words together, and so of each of them.
    pub bytes: usize,
    /// The bytes of a line.
    pub line: usize,
}
