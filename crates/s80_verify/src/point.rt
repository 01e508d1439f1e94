// The places that were reached.
ghost use Rattle.std.specs.Prelude.{◌≡◌, ◌≢◌, ℕ, ◌<◌, ◌++◌, ◌∷◌, [], ◌↔◌, IsTrue, length, slice_get, Some, None};
ghost use Rattle.s80_verify.specs.Found.{depth_in, free, Clashes, Sets};

use crate::places::PLACES;
use crate::stack::Stack;
use std::marker::Model;

/// A place that was reached: on whose stack, and with how many values on it.
#[derive(Clone, Copy, Drop)]
pub(crate) struct Point {
    pub at: u32,
    pub stack: Stack,
    pub depth: u32,
}

/// A list of points. Contracts see the list.
#[derive(Drop)]
pub(crate) struct Points {
    items: [Point; 2 * PLACES],
    count: usize,
}

impl Model for Points {
    ghost use Rattle.std.specs.Prelude.{List, take, ◌≤◌};
    ghost use Rattle.s80_verify.specs.declared.point.Point.{Point};

    ghost Value = { List Point };

    ghost view = { λ p. take p.count p.items };

    ghost invariant = { λ p. p.count ≤ 2048 };
}

impl Points {
    pub fn none() -> Self
        ensures { result ≡ [] }
    {
        let start = Point {
            at: 0,
            stack: Stack::OfHome,
            depth: 0,
        };
        Points {
            items: [start; 2 * PLACES],
            count: 0,
        }
    }

    pub fn push(&mut self, point: Point)
        requires { length self.old < 2048 }
        ensures { self.new ≡ self.old ++ point ∷ [] }
    {
        self.items[self.count] = point;
        self.count += 1;
    }

    pub fn get(&self, i: usize) -> Option<Point>
        ensures { result ≡ slice_get self.now i }
    {
        if i < self.count {
            Some(self.items[i])
        } else {
            None
        }
    }
}

/// For each place and each of the two stacks, the depth with which the place was reached on it.
#[derive(Drop)]
pub(crate) struct Marks {
    pub home: [Option<u32>; PLACES],
    pub block: [Option<u32>; PLACES],
}

impl Marks {
    pub fn none() -> Self
        ensures none { (stack : Stack) (at : ℕ) → depth_in result stack at ≡ None }
        ensures free { free result ≡ 2048 }
    {
        Marks {
            home: [None; PLACES],
            block: [None; PLACES],
        }
    }

    pub fn get(&self, stack: Stack, at: u32) -> Option<u32>
        requires { at < 1024 }
        ensures { result ≡ depth_in self.now stack at }
    {
        match stack {
            Stack::OfHome => self.home[at as usize],
            Stack::OfBlock => self.block[at as usize],
        }
    }

    /// Whether the place of a point was reached with another depth.
    pub fn clashes(&self, point: Point) -> bool
        requires { point.at < 1024 }
        ensures { IsTrue result ↔ Clashes self.now point }
    {
        differs(self.get(Stack::OfHome, point.at), point.depth)
            || differs(self.get(Stack::OfBlock, point.at), point.depth)
    }

    pub fn set(&mut self, point: Point)
        requires within { point.at < 1024 }
        requires unset { depth_in self.old point.stack point.at ≡ None }
        ensures { Sets self.old self.new point }
    {
        match point.stack {
            Stack::OfHome => self.home[point.at as usize] = Some(point.depth),
            Stack::OfBlock => self.block[point.at as usize] = Some(point.depth),
        }
    }
}

/// Whether there is another depth.
fn differs(mark: Option<u32>, depth: u32) -> bool
    ensures { IsTrue result ↔ ((another : ℕ) × (mark ≡ Some another) × (depth ≢ another)) }
{
    match mark {
        Some(another) => another != depth,
        None => false,
    }
}
