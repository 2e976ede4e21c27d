//! The heads of segments: which frames of a segment count is said by those of the later ones.
ghost use Rattle.std.specs.Prelude.{◌≡◌, ◌≤◌, ◌∷◌, [], drop, length, IfOk};
ghost use Rattle.sk_recovered.specs.Segments.{least, lower, AddsHead};

use sk_log::first_number;
use std::alloc::{AllocError, Global};
use std::marker::Model;

/// What the head of a segment says.
#[derive(Clone, Copy, Debug, PartialEq, Eq)]
pub struct Head {
    /// The segment's number.
    pub segment: u64,
    /// The number of its first frame.
    pub first: u64,
}

/// The heads of the segments of a log, in their order.
#[derive(Drop)]
pub struct Heads {
    heads: Vec<Head>,
}

impl Model for Heads {
    ghost use Rattle.std.specs.Prelude.{List};
    ghost use Rattle.std.specs.Coded.{coded_list};
    ghost use Rattle.sk_recovered.specs.declared.heads.Head.{Head};
    ghost use Rattle.sk_recovered.specs.contracts.heads.Head as head_row;

    ghost Value = { List Head };

    ghost coded = { coded_list head_row.the_row.coded };

    ghost view = { λ h. h.heads.items };
}

impl Heads {
    /// No heads.
    pub fn new(alloc: Global) -> Heads
        ensures { result ≡ [] }
    {
        Heads {
            heads: Vec::new(alloc),
        }
    }

    /// The head of one segment, as the only one.
    pub(crate) fn one(alloc: Global, segment: u64, first: u64) -> Result<Heads, AllocError>
        ensures { IfOk result (λ heads. heads ≡ record { segment = segment; first = first } ∷ []) }
    {
        let mut heads = Vec::new(alloc);
        heads.push(Head { segment, first })?;
        Ok(Heads { heads })
    }

    /// Takes the first 24 bytes of the next segment, or all there are. Says whether a whole head stands there; if not, the
    /// segment counts for nothing.
    pub fn add(&mut self, segment: u64, bytes: &[u8]) -> Result<bool, AllocError>
        ensures { AddsHead segment bytes.now self.old result self.new }
    {
        let Some(first) = first_number(bytes, segment) else {
            return Ok(false);
        };
        self.heads.push(Head { segment, first })?;
        Ok(true)
    }

    /// The heads.
    pub fn as_slice(&self) -> &[Head]
        ensures { result.now ≡ self.now }
    {
        self.heads.as_slice()
    }
}

/// The least number from which one of these goes on.
pub(crate) fn least(heads: &[Head]) -> Option<u64>
    ensures { result ≡ least heads.now }
{
    let mut bound = None;
    let mut i = heads.len();
    while i > 0 {
        i -= 1;
        bound = Some(lower(heads[i].first, bound));
    }
    bound
}

/// The lower of a first number and a bound, where there is one.
fn lower(first: u64, bound: Option<u64>) -> u64
    ensures { result ≡ lower first bound }
{
    match bound {
        Some(bound) if bound < first => bound,
        _ => first,
    }
}
