// The points at which a play stops.
ghost use Rattle.std.specs.Prelude.{◌≡◌, ◌+◌, ◌<◌, ◌≤◌, ◌^◌, IfOk, length};
ghost use Rattle.sg_explore.specs.Inside.Stopping.{IsRow, behind, points_of};
ghost use Rattle.sg_shared.specs.sg_sim.sg_plain.sg_edge.Stops.{AscendsAbove};

use sg_facts::{NoMemory, PointList};
use std::alloc::Global;

/// The points at which a play stops: one, or two in ascending order.
#[derive(Clone, Copy, Debug)]
pub(crate) enum StopsAt {
    One(u64),
    Two(u64, u64),
}

impl StopsAt {
    /// A point, alone or behind a first one.
    pub(crate) fn behind(first: Option<u64>, point: u64) -> StopsAt
        ensures { points_of result ≡ behind first point }
    {
        match first {
            None => StopsAt::One(point),
            Some(first) => StopsAt::Two(first, point),
        }
    }

    /// How many they are.
    pub(crate) fn count(&self) -> usize
        ensures { result ≡ length (points_of self.now) }
    {
        match self {
            StopsAt::One(_) => 1,
            StopsAt::Two(_, _) => 2,
        }
    }

    /// The points as a list.
    pub(crate) fn list(&self, alloc: Global) -> Result<PointList, NoMemory>
        ensures { IfOk result (λ list. list ≡ points_of self.now) }
    {
        match self {
            StopsAt::One(point) => PointList::from_slice(alloc, &[*point]),
            StopsAt::Two(first, last) => PointList::from_slice(alloc, &[*first, *last]),
        }
    }
}

/// A row of plays: each stops at one of so many points from one on, alone or behind a first one.
#[derive(Clone, Copy, Debug)]
pub(crate) struct Row {
    pub(crate) first: Option<u64>,
    pub(crate) from: u64,
    pub(crate) count: usize,
}

impl Row {
    /// The stops of one of its plays, counted from 0.
    pub(crate) fn stops(&self, at: usize) -> StopsAt
        requires row { IsRow self.now }
        requires at { at < self.now.count }
        ensures points { points_of result ≡ behind self.now.first (self.now.from + at) }
        ensures ascend { AscendsAbove 0 (points_of result) }
    {
        StopsAt::behind(self.first, self.from + at as u64)
    }

    /// The plays of it that come after so many, and at most so many of them.
    pub(crate) fn part(&self, done: usize, most: usize) -> Row
        requires row { IsRow self.now }
        requires done { done < self.now.count }
        requires most { 0 < most }
        ensures row { IsRow result }
        ensures first { result.first ≡ self.now.first }
        ensures from_here { result.from ≡ self.now.from + done }
        ensures some { 0 < result.count }
        ensures most { done + result.count ≤ self.now.count }
    {
        Row {
            first: self.first,
            from: self.from + done as u64,
            count: most.min(self.count - done),
        }
    }
}
