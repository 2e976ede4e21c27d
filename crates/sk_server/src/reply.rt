//! What the server replies.
use sk_objects::Content;

/// The answer to a request.
#[derive(Clone, Copy, Debug, PartialEq, Eq)]
pub enum Answer {
    /// The file has the version that was checked, or the store is done.
    Yes,
    /// The file has another version.
    No(Content),
    /// The content of the file.
    Copy(Content),
    /// The request depends on a refused guess.
    Dropped,
}

/// The answer to the request of a number.
#[derive(Clone, Copy, Debug, PartialEq, Eq)]
pub struct Reply {
    pub number: u64,
    pub answer: Answer,
}
