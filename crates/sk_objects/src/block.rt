//! Blocks of 512 bytes.
ghost use Rattle.std.specs.Prelude.{◌≡◌, ◌≤◌, ◌+◌, ◌-◌, ◌++◌, length, take, replicate, false, IfOk, OnOk, OnErr, ◌↔◌, IsTrue, if◌then◌else◌};
ghost use Rattle.sk_objects.specs.File.{overwritten};
ghost use Rattle.sk_objects.specs.Blocks.{cell, blank};

use std::alloc::{AllocError, Global};
use std::marker::Model;
use std::sync::Arc;

/// The size of a block.
pub const BLOCK: usize = 512;

/// What a block holds in which none was written.
static ZEROS: [u8; BLOCK] = [0; BLOCK];

/// 512 bytes, which others of the same bytes share until one of them is written. Where none was ever written they are zeros, and
/// take no memory.
#[derive(Drop)]
pub struct Block {
    cells: Option<Arc<[u8; BLOCK]>>,
}

impl Model for Block {
    ghost use Rattle.std.specs.Prelude.{◌≡◌, ℕ, List, length};
    ghost use Rattle.sk_objects.specs.Blocks.{cell};

    ghost Value = { List ℕ };

    ghost view = { λ b. cell b.cells };

    ghost invariant = { λ b. length (cell b.cells) ≡ 512 };
}

/// Copies bytes over a part that is there.
pub(crate) fn place(cells: &mut [u8], at: usize, bytes: &[u8])
    requires { at + length bytes.now ≤ length cells.old }
    ensures { cells.new ≡ overwritten cells.old at bytes.now }
{
    cells[at..at + bytes.len()].copy_from_slice(bytes);
}

/// The cells of a block.
#[tactic(auto, unfolding(crate::specs::Blocks::blank))]
fn cells_of(cells: &Option<Arc<[u8; BLOCK]>>) -> [u8; BLOCK]
    ensures { result ≡ cell cells.now }
{
    match cells {
        Some(cells) => **cells,
        None => [0; BLOCK],
    }
}

/// The cells of a block, lent.
#[tactic(auto, unfolding(crate::specs::Blocks::blank))]
fn lent_cells(cells: &Option<Arc<[u8; BLOCK]>>) -> &[u8]
    ensures { result.now ≡ cell cells.now }
{
    match cells {
        Some(cells) => cells.as_slice(),
        None => &ZEROS,
    }
}

impl PartialEq for Block {
    ghost use Rattle.std.specs.Cmp.{decided, partial_equiv_from_equiv};
    ghost use Rattle.sk_objects.specs.Same.{same_bytes};
    ghost use Rattle.sk_objects.specs.SameLemma.{exact_bytes};

    ghost eq = { same_bytes };

    ghost laws = { partial_equiv_from_equiv (decided same_bytes exact_bytes) };

    /// True exactly where both hold the same.
    fn eq(&self, other: &Block) -> bool
        ensures computed { result ≡ same_bytes self.now other.now }
        ensures exact { IsTrue result ↔ (self.now ≡ other.now) }
    {
        self.as_slice() == other.as_slice()
    }
}

impl Eq for Block {
    ghost use Rattle.std.specs.Cmp.{decided};
    ghost use Rattle.sk_objects.specs.Same.{same_bytes};
    ghost use Rattle.sk_objects.specs.SameLemma.{exact_bytes};

    ghost laws = { decided same_bytes exact_bytes };
}

impl Default for Block {
    /// A block in which no byte was written.
    fn default() -> Block {
        Block::new()
    }
}

impl Block {
    /// A block in which no byte was written: all are zeros.
    #[tactic(auto, unfolding(crate::specs::Blocks::blank))]
    pub fn new() -> Block
        ensures { result ≡ blank }
    {
        Block { cells: None }
    }

    /// The block of these cells.
    fn of(alloc: Global, cells: [u8; BLOCK]) -> Result<Block, AllocError>
        ensures { IfOk result (λ block. block ≡ cells) }
    {
        let cells = Arc::new(alloc, cells)?;
        Ok(Block { cells: Some(cells) })
    }

    /// Its bytes.
    pub fn as_slice(&self) -> &[u8]
        ensures value { result.now ≡ self.now }
        ensures len { length result.now ≡ 512 }
    {
        lent_cells(&self.cells)
    }

    /// Another block, of the same bytes with others at a place.
    pub fn overwritten(&self, alloc: Global, at: usize, bytes: &[u8]) -> Result<Block, AllocError>
        requires { at + length bytes.now ≤ 512 }
        ensures value { IfOk result (λ block. block ≡ overwritten self.now at bytes.now) }
        ensures len { length self.now ≡ 512 }
    {
        let mut cells = cells_of(&self.cells);
        place(&mut cells, at, bytes);
        Block::of(alloc, cells)
    }

    /// Writes bytes over a part of the block in place, if it holds bytes and shares them with no other, and answers whether it
    /// does. Else nothing has changed.
    fn overwrite_own(&mut self, at: usize, bytes: &[u8]) -> bool
        requires { at + length bytes.now ≤ 512 }
        ensures { self.new ≡ (if result then overwritten self.old at bytes.now else self.old) }
    {
        let Some(cells) = &mut self.cells else {
            return false;
        };
        match Arc::get_mut(cells) {
            Some(own) => {
                place(own, at, bytes);
                true
            }
            None => false,
        }
    }

    /// Writes bytes over a part of it; others that share its bytes keep theirs. Without memory nothing changes.
    pub fn overwrite(&mut self, alloc: Global, at: usize, bytes: &[u8]) -> Result<(), AllocError>
        requires { at + length bytes.now ≤ 512 }
        ensures ok { OnOk result (self.new ≡ overwritten self.old at bytes.now) }
        ensures err { OnErr result (self.new ≡ self.old) }
    {
        if !self.overwrite_own(at, bytes) {
            *self = self.overwritten(alloc, at, bytes)?;
        }
        Ok(())
    }

    /// Another block, which shares its bytes.
    pub fn copy(&self) -> Result<Block, AllocError>
        ensures { IfOk result (λ copy. copy ≡ self.now) }
    {
        match &self.cells {
            Some(cells) => {
                let cells = Arc::try_clone(cells)?;
                Ok(Block { cells: Some(cells) })
            }
            None => Ok(Block::new()),
        }
    }

    /// Another block, of its first bytes and zeros behind them. Of no bytes it takes no memory.
    #[tactic(auto, unfolding(crate::specs::Blocks::blank))]
    pub fn start(&self, alloc: Global, len: usize) -> Result<Block, AllocError>
        requires { len ≤ 512 }
        ensures { IfOk result (λ block. block ≡ take len self.now ++ replicate (512 - len) 0) }
    {
        if len == 0 {
            return Ok(Block::new());
        }
        let mut cells = cells_of(&self.cells);
        cells[len..].fill(0);
        Block::of(alloc, cells)
    }
}
