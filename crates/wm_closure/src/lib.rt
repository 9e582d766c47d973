//! Reachability in a graph whose nodes come after their sources, computed from the last node to the first.
#![tactic(auto)]

ghost use Rattle.std.specs.Prelude.{◌≡◌, ◌<◌, ◌≤◌, ◌+◌, ◌*◌, ◌↔◌, ℕ, length, slice_index, EachIndex, IfOk, IsTrue};
ghost use Rattle.wm_closure.specs.Graph.{AreArrivals, AreLanes, AreOwn, IsOrdered, LowersRow, LowersSources, Reaches};

use std::alloc::{AllocError, Global};
use std::marker::Model;
use wm_list::List;

/// For each node a row with an entry for each lane: the node itself at its own lane, and the number of nodes at the
/// others.
fn start_rows(alloc: Global, lanes: &[usize], width: usize) -> Result<Vec<usize>, AllocError>
    requires { EachIndex lanes.now (λ k. slice_index lanes.now k < width) }
    ensures size { IfOk result (λ rows. length rows.items ≡ length lanes.now * width) }
    ensures own { IfOk result (λ rows. AreOwn lanes.now width (length lanes.now) rows.items) }
{
    let size = lanes.len().checked_mul(width).ok_or(AllocError)?;
    let mut rows = vec![in alloc; lanes.len(); size]?;
    for (node, lane) in lanes.iter().enumerate() {
        rows[node * width + *lane] = node;
    }
    Ok(rows)
}

/// Lowers the row of a source to the row of a node after it.
fn lower_row(rows: &mut [usize], width: usize, source: usize, node: usize)
    requires before { source < node }
    requires inside { node * width + width ≤ length rows.old }
    ensures size { length rows.new ≡ length rows.old }
    ensures lowered { LowersRow width source node width rows.old rows.new }
{
    for lane in 0..width {
        let first = rows[node * width + lane];
        let place = source * width + lane;
        if first < rows[place] {
            rows[place] = first;
        }
    }
}

/// Lowers the row of each source of a node to the node's row: what the node reaches, its sources reach.
fn lower_sources(rows: &mut [usize], width: usize, sources: &[usize], node: usize)
    requires before { EachIndex sources.now (λ k. slice_index sources.now k < node) }
    requires inside { node * width + width ≤ length rows.old }
    ensures size { length rows.new ≡ length rows.old }
    ensures lowered { LowersSources width sources.now node (length sources.now) rows.old rows.new }
{
    for source in sources {
        lower_row(rows, width, *source, node);
    }
}

/// For each node and each lane, the first node of the lane that is the node or is reached from it. Edges lead forward,
/// so the row of a node is complete once all later nodes have lowered the rows of their sources.
fn arrivals(
    alloc: Global,
    graph: &[List<usize>],
    lanes: &[usize],
    width: usize,
) -> Result<Vec<usize>, AllocError>
    requires ordered { IsOrdered graph.now }
    requires lanes { AreLanes graph.now lanes.now width }
    ensures { IfOk result (λ rows. AreArrivals graph.now lanes.now width rows.items) }
{
    let mut rows = start_rows(alloc, lanes, width)?;
    let mut node = graph.len();
    while node > 0 {
        node -= 1;
        lower_sources(&mut rows, width, graph[node].as_slice(), node);
    }
    Ok(rows)
}

/// Reachability in a graph. Contracts see it as the graph: for each node its sources.
#[derive(Drop)]
pub struct Closure {
    graph: Vec<List<usize>>,
    lanes: Vec<usize>,
    width: usize,
    arrivals: Vec<usize>,
}

impl Model for Closure {
    ghost use Rattle.std.specs.Prelude.{List, ℕ};
    ghost use Rattle.wm_closure.specs.Graph.{IsClosureOf};

    ghost Value = { List (List ℕ) };

    ghost view = { λ c. c.graph.items };

    ghost invariant = { λ c. IsClosureOf c.graph.items c.lanes.items c.width c.arrivals.items };
}

impl Closure {
    /// The closure of a graph whose nodes come after their sources, and whose nodes each have one of `width` lanes, in
    /// which each node reaches the later ones. It takes `width` steps for each edge. The only error is an allocation
    /// failure.
    pub fn of(
        alloc: Global,
        graph: Vec<List<usize>>,
        lanes: Vec<usize>,
        width: usize,
    ) -> Result<Closure, AllocError>
        requires ordered { IsOrdered graph.items }
        requires lanes { AreLanes graph.items lanes.items width }
        ensures { IfOk result (λ c. c ≡ graph.items) }
    {
        let arrivals = arrivals(alloc, graph.as_slice(), lanes.as_slice(), width)?;
        Ok(Closure {
            graph,
            lanes,
            width,
            arrivals,
        })
    }

    /// Whether there is a chain of edges from one node to the other; false for numbers that are not nodes.
    pub fn reaches(&self, from: usize, to: usize) -> bool
        ensures { IsTrue result ↔ Reaches self.now from to }
    {
        let graph = self.graph.as_slice();
        if to >= graph.len() || from >= to {
            return false;
        }
        self.arrivals[from * self.width + self.lanes[to]] <= to
    }
}
