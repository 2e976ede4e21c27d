//! What is logged of a command.
ghost use Rattle.std.specs.Prelude.{◌≡◌, ◌&&◌, nat_le, IfOk};
ghost use Rattle.std.specs.List.{list_any};
ghost use Rattle.sk_batches.specs.Records.{is_struck};

use std::alloc::{AllocError, Global};
use std::marker::Model;

/// What is logged of a command, and the batches that it depends on beside its own.
#[derive(Drop)]
pub(crate) struct Record {
    rests: Vec<u64>,
    bytes: Vec<u8>,
}

impl Model for Record {
    ghost use Rattle.sk_batches.specs.Records.{RecordView};

    ghost Value = { RecordView };

    ghost view = { λ r. record {
      rests = r.rests.items;
      bytes = r.bytes.items;
    } };
}

impl Record {
    pub(crate) fn new(alloc: Global, rests: &[u64], bytes: &[u8]) -> Result<Record, AllocError>
        ensures { IfOk result (λ r. r ≡ record { rests = rests.now; bytes = bytes.now }) }
    {
        let rests = Vec::from_slice(alloc, rests)?;
        let bytes = Vec::from_slice(alloc, bytes)?;
        Ok(Record { rests, bytes })
    }

    pub(crate) fn bytes(&self) -> &[u8]
        ensures { result.now ≡ self.now.bytes }
    {
        self.bytes.as_slice()
    }

    /// Whether it depends on one of the batches from the first to the last.
    pub(crate) fn is_struck(&self, first: u64, last: u64) -> bool
        ensures { result ≡ is_struck first last self.now }
    {
        is_any_within(self.rests.as_slice(), first, last)
    }
}

/// Whether one of the numbers is among those from the first to the last.
fn is_any_within(numbers: &[u64], first: u64, last: u64) -> bool
    ensures { result ≡ list_any (λ n. nat_le first n && nat_le n last) numbers.now }
{
    for number in numbers {
        if first <= *number && *number <= last {
            return true;
        }
    }
    false
}
