//! Where a word stands in its line.
ghost use Rattle.std.specs.Prelude.{◌≡◌, [], drop, MatchOption};
ghost use Rattle.sk_words.specs.Words.{words};
ghost use Rattle.sk_faults.specs.Details.{IsWordOf};

use sk_words::Words;

/// A word of a line, and the number of bytes before it; no byte behind the line's last where a word is missing.
#[derive(Clone, Copy)]
pub struct Place<'a> {
    pub start: usize,
    pub word: &'a [u8],
}

/// Where the word of this index stands, the first having the index 0; `None` where there is none.
pub fn place_of(line: &[u8], index: usize) -> Option<Place<'_>>
    ensures { MatchOption result (drop index (words line.now) ≡ [])
        (λ place. IsWordOf line.now index place.word.now) }
{
    let mut words = Words::of(line);
    let mut left = index;
    while let Some(word) = words.next() {
        if left == 0 {
            let behind = words.bytes().len();
            let start = line.len().saturating_sub(behind).saturating_sub(word.len());
            return Some(Place { start, word });
        }
        left -= 1;
    }
    None
}
