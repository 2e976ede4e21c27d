//! Snapshots: what a store has, as works that set it.
ghost use Rattle.std.specs.Prelude.{◌≡◌, ◌++◌, ◌==◌, [], true, length, IfOk, OnErr, OnOk};
ghost use Rattle.std.specs.FinMap.{is_sorted};
ghost use Rattle.sk_plain_store.specs.Plain.{bytes_cmp};
ghost use Rattle.sk_commands.specs.Requests.{log_text};
ghost use Rattle.sk_replay.specs.Snapshot.{set_of, IsFilled, IsPiece};

use sk_commands::{ByteString, Command, Name, Options, When, Work};
use sk_plain_store::PlainStore;
use sk_requests::reply::{array, bulk};
use std::alloc::{AllocError, Global};
use std::marker::Model;

/// The work that sets an entry. Such works, one after another, make a store again.
pub fn set_work(key: ByteString, value: ByteString) -> Work
    ensures { result ≡ set_of (key, value) }
{
    let options = Options {
        when: When::Always,
        gives: false,
    };
    Work::One(Command::Set(key, value, options))
}

/// The entries of a store, which are written piece by piece. Contracts see those that are left.
#[derive(Drop)]
pub struct Snapshot {
    entries: Vec<(ByteString, ByteString)>,
    written: usize,
}

impl Model for Snapshot {
    ghost use Rattle.std.specs.Prelude.{◌≡◌, ◌≤◌, true, drop, length};
    ghost use Rattle.std.specs.FinMap.{is_sorted};
    ghost use Rattle.std.specs.Coded.{coded_list, coded×, coded_ℕ};
    ghost use Rattle.sk_plain_store.specs.Plain.{bytes_cmp, Entries};

    ghost Value = { Entries };

    ghost coded = { coded_list (coded× (coded_list coded_ℕ) (coded_list coded_ℕ)) };

    ghost view = { λ s. drop s.written s.entries.items };

    ghost invariant = { λ s. (s.written ≤ length s.entries.items) × (is_sorted bytes_cmp s.entries.items ≡ true) };
}

/// Writes the bytes that a log keeps of a work that sets an entry.
fn write_entry(text: &mut Vec<u8>, entry: &(ByteString, ByteString)) -> Result<(), AllocError>
    ensures { OnOk result (text.new.items ≡ text.old.items ++ log_text (set_of entry.now)) }
{
    array(text, 3)?;
    bulk(text, Name::Set.text())?;
    bulk(text, entry.0.as_slice())?;
    bulk(text, entry.1.as_slice())
}

/// Writes the first entries, as many as have room, and one at least. Answers how many.
fn fill(
    text: &mut Vec<u8>,
    entries: &[(ByteString, ByteString)],
    room: usize,
) -> Result<usize, AllocError>
    requires { text.old.items ≡ [] }
    ensures { IfOk result (λ count. IsFilled room entries.now count text.new.items) }
{
    for (i, entry) in entries.iter().enumerate() {
        let before = text.len();
        write_entry(text, entry)?;
        if i > 0 && text.len() > room {
            text.truncate(before);
            return Ok(i);
        }
    }
    Ok(entries.len())
}

impl Snapshot {
    /// All that a store has is to be written.
    pub fn new(store: PlainStore) -> Result<Snapshot, AllocError>
        ensures all { IfOk result (λ snapshot. snapshot ≡ store) }
        ensures rising { is_sorted bytes_cmp store ≡ true }
    {
        Ok(Snapshot {
            entries: store.into_entries()?,
            written: 0,
        })
    }

    /// The entries that are left, in the order of their keys.
    pub fn left(&self) -> &[(ByteString, ByteString)]
        ensures left { result.now ≡ self.now }
        ensures rising { is_sorted bytes_cmp result.now ≡ true }
    {
        &self.entries.as_slice()[self.written..]
    }

    /// Whether all are written.
    pub fn is_done(&self) -> bool
        ensures { result ≡ (length self.now == 0) }
    {
        self.entries.len() == self.written
    }

    /// The payload of the next frame: the next entries, as many as have room, and one at least if there is one. Without memory
    /// nothing has changed.
    pub fn piece(&mut self, alloc: Global, room: usize) -> Result<Vec<u8>, AllocError>
        ensures ok { IfOk result (λ payload. IsPiece room self.old payload.items self.new) }
        ensures err { OnErr result (self.new ≡ self.old) }
    {
        let mut payload = Vec::new(alloc);
        self.written += fill(&mut payload, &self.entries.as_slice()[self.written..], room)?;
        Ok(payload)
    }
}
