//! The cells of a region of memory.
ghost use Rattle.std.specs.Prelude.{◌≡◌, ◌<◌, ◌↔◌, [], length, slice_get, slice_set, IfOk, IsTrue, option_copied};
ghost use Rattle.wm_memory.specs.Table.{HasNoCells, SetsCell, opened};

use crate::cells::Cell;
use crate::{CHUNK, REGION};
use std::alloc::{AllocError, Global};
use std::marker::Model;
use wm_list::List;

/// The chunks of a region: none, or all. A chunk has its cells, or none.
#[derive(Drop)]
pub struct Region {
    chunks: Vec<List<Cell>>,
}

impl Model for Region {
    ghost use Rattle.std.specs.Prelude.{List};
    ghost use Rattle.wm_memory.specs.declared.cells.Cell.{Cell};

    ghost Value = { List (List Cell) };

    ghost view = { λ a. a.chunks.items };
}

impl Region {
    /// A region without chunks.
    pub fn new(alloc: Global) -> Self
        ensures { result ≡ [] }
    {
        Region {
            chunks: Vec::new(alloc),
        }
    }

    /// A region with its chunks, which have no cells.
    pub fn with_chunks(alloc: Global) -> Result<Self, AllocError>
        ensures { IfOk result HasNoCells }
    {
        let count = REGION / CHUNK;
        let mut chunks = Vec::with_capacity(alloc, count)?;
        for number in 0..count {
            let _at = number;
            chunks.push(List::new(alloc))?;
        }
        Ok(Region { chunks })
    }

    /// Whether it has no chunks.
    pub fn is_empty(&self) -> bool
        ensures { IsTrue result ↔ (length self.now ≡ 0) }
    {
        self.chunks.is_empty()
    }

    /// A chunk, if it has chunks.
    pub fn chunk(&self, number: usize) -> Option<&List<Cell>>
        ensures { option_copied result ≡ slice_get self.now number }
    {
        self.chunks.get(number)
    }

    /// Gives a chunk these cells. A region without chunks becomes `fresh` first.
    pub fn fill(&mut self, fresh: Region, number: usize, cells: List<Cell>)
        requires { number < length (opened self.old fresh) }
        ensures { self.new ≡ slice_set (opened self.old fresh) number cells }
    {
        if self.chunks.is_empty() {
            let Region { chunks } = fresh;
            self.chunks = chunks;
        }
        self.chunks[number] = cells;
    }

    /// Replaces a cell, if it is there.
    pub fn set(&mut self, number: usize, place: usize, cell: Cell)
        ensures { SetsCell number place cell self.old self.new }
    {
        if number < self.chunks.len() && place < self.chunks[number].len() {
            self.chunks[number].set(place, cell);
        }
    }
}
