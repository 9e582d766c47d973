//! Arcs of a graph whose vertices are numbers.

use std::alloc::{AllocError, Global};

/// An arc.
#[derive(Clone, Copy)]
pub(crate) struct Arc {
    from: usize,
    pub to: usize,
    /// The place of the arc before it from the same vertex.
    pub next: Option<usize>,
}

/// Arcs in the order in which they were added.
#[derive(Drop)]
pub(crate) struct Arcs {
    /// For each vertex the place of its last arc.
    firsts: Vec<Option<usize>>,
    arcs: Vec<Arc>,
}

impl Arcs {
    /// No arcs of so many vertices.
    pub(crate) fn new(alloc: Global, count: usize) -> Result<Self, AllocError> {
        Ok(Arcs {
            firsts: vec![in alloc; None; count]?,
            arcs: Vec::new(alloc),
        })
    }

    /// Adds an arc.
    pub(crate) fn push(&mut self, from: usize, to: usize) -> Result<(), AllocError> {
        if from < self.firsts.len() {
            let next = self.firsts[from];
            self.firsts[from] = Some(self.arcs.len());
            self.arcs.push(Arc { from, to, next })?;
        }
        Ok(())
    }

    /// Removes the last arcs, so that only so many are left.
    pub(crate) fn truncate(&mut self, count: usize) {
        for _ in count..self.arcs.len() {
            if let Some(arc) = self.arcs.pop()
                && arc.from < self.firsts.len()
            {
                self.firsts[arc.from] = arc.next;
            }
        }
    }

    /// How many arcs there are.
    pub(crate) fn len(&self) -> usize {
        self.arcs.len()
    }

    /// All arcs.
    pub(crate) fn all(&self) -> &[Arc] {
        self.arcs.as_slice()
    }

    /// The place of the last arc from a vertex.
    pub(crate) fn first(&self, vertex: usize) -> Option<usize> {
        *self.firsts.get(vertex)?
    }

    /// The arc at a place.
    pub(crate) fn get(&self, place: Option<usize>) -> Option<Arc> {
        self.arcs.get(place?).copied()
    }
}
