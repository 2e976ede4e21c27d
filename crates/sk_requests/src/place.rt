//! Where in a request the next byte stands.

/// Where in a request the next byte stands.
#[derive(Clone, Copy, Debug, PartialEq, Eq)]
pub(crate) enum Place {
    /// In the first line of it.
    Front,
    /// In the line before a word, where so many words are to come.
    Length(usize),
    /// In a word, of which so many bytes are to come.
    Word(usize, usize),
    /// Behind the carriage return that stands behind a word.
    End(usize),
}
