//! Scarce memory for tests: first, all address space that the process can still get is allocated.
#![tactic(auto)]

ghost use Rattle.std.specs.Prelude.{◌≡◌, ◌≤◌, IfOk, length};

use std::alloc::{AllocError, Global};
use std::marker::Model;

const LARGEST: usize = 1 << 40;

const PIECE: usize = 65_536;

const PIECES: usize = 64;

const PLACES: usize = 400_000;

// The C library splits freed blocks of this size and above to fit a request. It reuses a smaller
// freed block only whole, and only for a request of the same size.
const CUT: usize = 2_040;

// After this many sufficient budgets in a row, all larger ones are assumed to be sufficient.
const SPARE: usize = 16;

/// Allocates blocks of this size until the allocator fails, at most `PLACES`. Nothing is written to
/// them.
fn take_each(blocks: &mut Vec<Vec<u8>>, alloc: Global, size: usize) -> Result<(), AllocError>
    ensures { length blocks.old.items ≤ length blocks.new.items }
{
    for _ in 0..PLACES {
        match Vec::with_capacity(alloc, size) {
            Ok(block) => blocks.push(block)?,
            Err(_) => break,
        }
    }
    Ok(())
}

/// Makes the allocator fail by allocating all blocks: first of sizes that halve down to 2 KiB, then
/// of each smaller size that the C library keeps apart.
fn take_all(blocks: &mut Vec<Vec<u8>>, alloc: Global, largest: usize) -> Result<(), AllocError>
    ensures { length blocks.old.items ≤ length blocks.new.items }
{
    for shift in 0..usize::BITS {
        let size = largest >> shift;
        if size < 2_048 {
            break;
        }
        take_each(blocks, alloc, size)?;
    }
    for class in (0..128usize).rev() {
        take_each(blocks, alloc, class.saturating_mul(16).saturating_add(8))?;
    }
    Ok(())
}

/// By how much budgets grow. Block sizes of the C library are multiples of it, so each allocation
/// fails at some budget.
pub const STEP: usize = 16;

/// Holds all memory except a reserve. `limit` allocates the reserve too, except a budget. Contracts
/// see how many blocks of the reserve are allocated.
#[derive(Drop)]
pub struct FailingAlloc {
    blocks: Vec<Vec<u8>>,
    filler: Vec<Vec<u8>>,
}

impl Model for FailingAlloc {
    ghost use Rattle.std.specs.Prelude.{ℕ, length};

    ghost Value = { ℕ };

    ghost view = { λ memory. length memory.filler.items };
}

impl FailingAlloc {
    /// A failing allocator that has all memory allocated except a reserve of 4 MiB, which is free
    /// until the first `limit`.
    ///
    /// # Errors
    ///
    /// `AllocError` if the reserve or the lists of blocks cannot be allocated.
    ///
    /// # Cost
    ///
    /// Up to 400,000 allocations of each size. Nothing is written to them.
    pub fn new(alloc: Global) -> Result<FailingAlloc, AllocError>
        ensures { IfOk result (λ memory. memory ≡ 0) }
    {
        let mut blocks: Vec<Vec<u8>> = Vec::with_capacity(alloc, PLACES)?;
        let mut filler: Vec<Vec<u8>> = Vec::with_capacity(alloc, PLACES)?;
        for _ in 0..PIECES {
            filler.push(Vec::with_capacity(alloc, PIECE)?)?;
        }
        take_all(&mut blocks, alloc, LARGEST)?;
        filler.clear();
        Ok(FailingAlloc { blocks, filler })
    }

    /// Leaves the failing allocator one free piece of `budget` bytes. Each block allocated from it
    /// has a header of 8 bytes. With a budget of 0 every allocation fails. Blocks allocated before
    /// stay allocated.
    ///
    /// # Errors
    ///
    /// `AllocError` if too little of the reserve is left for the budget.
    pub fn limit(&mut self, alloc: Global, budget: usize) -> Result<(), AllocError>
        ensures { self.old ≤ self.new }
    {
        if budget == 0 {
            return take_all(&mut self.filler, alloc, PIECE);
        }
        let plug: Vec<u8> = Vec::with_capacity(alloc, budget.saturating_add(CUT))?;
        take_all(&mut self.filler, alloc, PIECE)?;
        drop(plug);
        self.filler.push(Vec::with_capacity(alloc, CUT)?)?;
        Ok(())
    }

    /// Lets the allocator no longer fail, by freeing the whole reserve.
    pub fn lift(&mut self)
        ensures { self.new ≡ 0 }
    {
        self.filler.clear();
    }
}

/// The budgets at which an allocation failed, of budgets that grow by [`STEP`] from 0.
#[derive(Clone, Copy, Debug)]
pub struct Tally {
    blocks: usize,
    spare: usize,
}

impl Tally {
    /// No budget has been tried.
    pub const EMPTY: Tally = Tally {
        blocks: 0,
        spare: 0,
    };

    /// Counts the next budget of the failing allocator. `refused` says whether an allocation failed
    /// at it.
    pub fn count(&mut self, refused: bool) {
        self.spare = self.spare.saturating_add(1);
        if refused {
            self.blocks = self.blocks.saturating_add(self.spare);
            self.spare = 0;
        }
    }

    /// Whether enough budgets of the failing allocator in a row were sufficient that larger ones
    /// need not be tried.
    pub fn is_over(&self) -> bool {
        self.spare >= SPARE
    }

    /// The minimum number of blocks of [`STEP`] bytes of the failing allocator that was sufficient,
    /// as were all larger numbers that were tried.
    pub fn blocks(&self) -> usize {
        self.blocks
    }
}
