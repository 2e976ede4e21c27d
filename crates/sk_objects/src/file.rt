//! Files.
ghost use Rattle.std.specs.Prelude.{◌≡◌, ◌≤◌, ◌<◌, ◌+◌, ◌*◌, [], length, take, IfOk, OnOk, OnErr, ◌↔◌, IsTrue};
ghost use Rattle.sk_objects.specs.File.{written, cut, part, blocks_of};
ghost use Rattle.sk_ids.specs.declared.text.TheConstants.{TEXT_LIMIT};
ghost use Rattle.sk_objects.specs.Blocks.{joined, AreBlocks};
ghost use Rattle.sk_objects.specs.Slots.{IsZeroFrom};
ghost use Rattle.sk_objects.specs.declared.file.TheConstants.{FILE_LIMIT};

use crate::Block;
use crate::block::BLOCK;
use crate::slots::{
    SLOTS, blocks_of, copy_slots, cut_slots, fill_slots, overwrite, read_into, same_slots,
};
use sk_ids::Text;
use std::alloc::{AllocError, Global};
use std::marker::Model;

/// The greatest length of a file, in bytes.
pub const FILE_LIMIT: usize = 32_768;

/// The bytes of a file, at most 32,768, in at most 64 slots of blocks. The room for all of them is made
/// with the file, and a slot comes when there are bytes up to it.
#[derive(Drop)]
pub struct File {
    slots: Vec<Block>,
    size: usize,
}

impl Model for File {
    ghost use Rattle.std.specs.Prelude.{ℕ, List, take, vec_capacity};
    ghost use Rattle.sk_objects.specs.Blocks.{joined};
    ghost use Rattle.sk_objects.specs.Slots.{AreTidySlots};

    ghost Value = { List ℕ };

    ghost view = { λ f. take f.size (joined f.slots.items) };

    ghost invariant = { λ f. AreTidySlots f.slots.items f.size (vec_capacity f.slots) };
}

/// The first bytes of a block.
fn block_start(slots: &[Block], index: usize, count: usize) -> &[u8]
    requires there { index < length slots.now }
    requires blocks { AreBlocks slots.now }
    requires within { count ≤ 512 }
    ensures { result.now ≡ part (joined slots.now) (512 * index) count }
{
    &slots[index].as_slice()[..count]
}

impl PartialEq for File {
    ghost use Rattle.std.specs.Cmp.{decided, partial_equiv_from_equiv};
    ghost use Rattle.sk_objects.specs.Same.{same_bytes};
    ghost use Rattle.sk_objects.specs.SameLemma.{exact_bytes};

    ghost eq = { same_bytes };

    ghost laws = { partial_equiv_from_equiv (decided same_bytes exact_bytes) };

    /// True exactly where both hold the same.
    fn eq(&self, other: &File) -> bool
        ensures computed { result ≡ same_bytes self.now other.now }
        ensures exact { IsTrue result ↔ (self.now ≡ other.now) }
    {
        if self.size != other.size {
            return false;
        }
        let count = blocks_of(self.size);
        same_slots(&self.slots[..count], &other.slots[..count])
    }
}

impl Eq for File {
    ghost use Rattle.std.specs.Cmp.{decided};
    ghost use Rattle.sk_objects.specs.Same.{same_bytes};
    ghost use Rattle.sk_objects.specs.SameLemma.{exact_bytes};

    ghost laws = { decided same_bytes exact_bytes };
}

impl File {
    /// The empty file.
    pub fn new(alloc: Global) -> Result<File, AllocError>
        ensures { IfOk result (λ file. file ≡ []) }
    {
        let slots = Vec::with_capacity(alloc, SLOTS)?;
        Ok(File { slots, size: 0 })
    }

    /// The number of bytes.
    pub fn len(&self) -> usize
        ensures value { result ≡ length self.now }
        ensures limit { result ≤ FILE_LIMIT }
    {
        self.size
    }

    /// The file of a text's bytes.
    pub fn from_text(alloc: Global, bytes: &Text) -> Result<File, AllocError>
        ensures { IfOk result (λ file. file ≡ bytes.now) }
    {
        let mut file = File::new(alloc)?;
        if bytes.len() > 0 {
            file.write_at(0, bytes.as_slice())?;
        }
        Ok(file)
    }

    /// Another file of the same bytes, which shares its blocks.
    pub fn copy(&self) -> Result<File, AllocError>
        ensures { IfOk result (λ copy. copy ≡ self.now) }
    {
        let slots = copy_slots(*self.slots.allocator(), &self.slots)?;
        Ok(File {
            slots,
            size: self.size,
        })
    }

    /// Up to `count` bytes, at most 512, from a place on; none past the end.
    pub fn part(&self, at: usize, count: usize) -> Text
        requires { count ≤ TEXT_LIMIT }
        ensures { result ≡ part self.now at count }
    {
        let mut text = Text::empty();
        self.part_into(at, count, &mut text);
        text
    }

    /// Reads up to `count` bytes from a place on into a text that is there.
    pub fn part_into(&self, at: usize, count: usize, text: &mut Text)
        requires { count ≤ TEXT_LIMIT }
        ensures { text.new ≡ part self.now at count }
    {
        if at >= self.size {
            text.set(&[]);
            return;
        }
        let rest = self.size - at;
        if rest < count {
            read_into(&self.slots, at, rest, text);
        } else {
            read_into(&self.slots, at, count, text);
        }
    }

    /// Writes bytes at a place, with zeros in a gap. Without memory nothing changes; within one block that was written before and
    /// is shared with no copy of the file it wants none.
    pub fn write_at(&mut self, at: usize, bytes: &[u8]) -> Result<(), AllocError>
        requires some { 1 ≤ length bytes.now }
        requires short { length bytes.now ≤ TEXT_LIMIT }
        requires end { at + length bytes.now ≤ FILE_LIMIT }
        ensures ok { OnOk result (self.new ≡ written self.old at bytes.now) }
        ensures err { OnErr result (self.new ≡ self.old) }
    {
        let end = at + bytes.len();
        fill_slots(&mut self.slots, blocks_of(end));
        overwrite(&mut self.slots, at, bytes)?;
        self.size = self.size.max(end);
        Ok(())
    }

    /// Keeps the first bytes, fewer than there are.
    fn shorten(&mut self, len: usize) -> Result<(), AllocError>
        requires { len < length self.old }
        ensures ok { OnOk result (self.new ≡ cut self.old len) }
        ensures err { OnErr result (self.new ≡ self.old) }
    {
        cut_slots(&mut self.slots, len)?;
        self.size = len;
        Ok(())
    }

    /// Appends zeros.
    fn extend(&mut self, len: usize)
        requires short { len ≤ FILE_LIMIT }
        requires more { length self.old ≤ len }
        ensures { self.new ≡ cut self.old len }
    {
        fill_slots(&mut self.slots, blocks_of(len));
        self.size = len;
    }

    /// Keeps the first `len` bytes, or appends zeros up to `len`. Without memory nothing changes; only a cut within a block
    /// wants any.
    pub fn cut_to(&mut self, len: usize) -> Result<(), AllocError>
        requires { len ≤ FILE_LIMIT }
        ensures grows { OnErr result (len < length self.old) }
        ensures ok { OnOk result (self.new ≡ cut self.old len) }
        ensures err { OnErr result (self.new ≡ self.old) }
    {
        if len < self.len() {
            return self.shorten(len);
        }
        self.extend(len);
        Ok(())
    }

    /// Keeps the first bytes, where zeros alone stand behind them. It takes no memory.
    pub fn drop_zeros(&mut self, count: usize)
        requires within { count ≤ length self.old }
        requires zeros { IsZeroFrom count self.old }
        ensures { self.new ≡ take count self.old }
    {
        self.size = count;
    }

    /// How many blocks hold the bytes.
    pub fn blocks(&self) -> usize
        ensures value { result ≡ blocks_of (length self.now) }
        ensures limit { result ≤ 64 }
    {
        blocks_of(self.size)
    }

    /// The bytes of a block, fewer than 512 of the last alone.
    pub fn block(&self, index: usize) -> &[u8]
        requires { index < blocks_of (length self.now) }
        ensures { result.now ≡ part self.now (512 * index) 512 }
    {
        let rest = self.size - BLOCK * index;
        if rest < BLOCK {
            block_start(&self.slots, index, rest)
        } else {
            block_start(&self.slots, index, BLOCK)
        }
    }
}
