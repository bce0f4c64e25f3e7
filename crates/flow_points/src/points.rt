//! The points of an image.

ghost use Rattle.std.specs.Prelude.{◌≡◌, ◌<◌, ◌≤◌, Some, length, slice_get, Contains, IfNone, IfSome, IsSomeAnd};
ghost use Rattle.std.specs.List.Sorted.{IsBinarySearchResult, IsSearchInRange};
ghost use Rattle.flow_points.specs.Walks.{most_points, point};
ghost use Rattle.flow_points.specs.PointLists.{HasCode, places_of, point_cmp};

use crate::code_points::{CodePoint, Flow, Point};
use rv_decode::Instr;
use sqlite_items::Items;
use std::marker::Model;

/// The points of an image, ascending by procedure and then by address, each with its code, and the
/// procedures, ascending.
#[derive(Drop)]
pub struct Points {
    entry: u64,
    points: Items<CodePoint>,
    procedures: Items<u64>,
}

impl Model for Points {
    ghost use Rattle.flow_points.specs.PointLists.{FlowPoints, HasCode};

    ghost Value = { FlowPoints };

    ghost view = { λ p. record { entry = p.entry; points = p.points; procedures = p.procedures } };

    ghost invariant = { λ p. HasCode (record { entry = p.entry; points = p.points; procedures = p.procedures }) };
}

impl Points {
    /// Points of which it is known that they are all those of some code.
    pub(crate) fn new(entry: u64, points: Items<CodePoint>, procedures: Items<u64>) -> Points
        requires { HasCode (record { entry = entry; points = points; procedures = procedures }) }
        ensures { result ≡ record { entry = entry; points = points; procedures = procedures } }
    {
        Points {
            entry,
            points,
            procedures,
        }
    }

    /// How many points there are, no more than the limit.
    pub fn count(&self) -> u32
        ensures count { result ≡ length self.now.points }
        ensures few { result ≤ most_points }
    {
        self.points.len() as u32
    }

    /// The point of this number.
    pub fn point(&self, i: u32) -> Point
        requires { i < length self.now.points }
        ensures { IsSomeAnd (slice_get self.now.points i) (λ c. result ≡ c.point) }
    {
        self.code(i).point
    }

    /// Its instruction.
    pub fn instr(&self, i: u32) -> Instr
        requires { i < length self.now.points }
        ensures { IsSomeAnd (slice_get self.now.points i) (λ c. result ≡ c.instr) }
    {
        self.code(i).instr
    }

    /// The instruction word at its address.
    pub fn word(&self, i: u32) -> u32
        requires { i < length self.now.points }
        ensures { IsSomeAnd (slice_get self.now.points i) (λ c. result ≡ c.word) }
    {
        self.code(i).word
    }

    /// The length of its instruction in bytes.
    pub fn length(&self, i: u32) -> u8
        requires { i < length self.now.points }
        ensures { IsSomeAnd (slice_get self.now.points i) (λ c. result ≡ c.length) }
    {
        self.code(i).length
    }

    /// Where the flow goes on from it.
    pub fn flow(&self, i: u32) -> Flow
        requires { i < length self.now.points }
        ensures { IsSomeAnd (slice_get self.now.points i) (λ c. result ≡ c.flow) }
    {
        self.code(i).flow
    }

    /// The point of this number with its word, the word's length, its instruction and its flow.
    pub fn code(&self, i: u32) -> CodePoint
        requires { i < length self.now.points }
        ensures { slice_get self.now.points i ≡ Some result }
    {
        self.points.as_slice()[i as usize]
    }

    /// The number of the point at an address in a procedure; None exactly where there is no such point.
    pub fn find(&self, proc_entry: u64, address: u64) -> Option<u32>
        ensures found { IfSome result (λ i. IsSomeAnd (slice_get self.now.points i) (λ c. c.point ≡ point proc_entry address)) }
        ensures none { IfNone result (Contains (places_of self.now.points) (point proc_entry address) → ⊥) }
    {
        let point = Point {
            proc_entry,
            address,
        };
        match search(self.points.as_slice(), &point) {
            Ok(at) => Some(at as u32),
            Err(_) => None,
        }
    }

    /// The entries of the procedures, ascending, each once.
    pub fn procedures(&self) -> &[u64]
        ensures { result.now ≡ self.now.procedures }
    {
        self.procedures.as_slice()
    }

    /// The entry of the image.
    pub fn entry(&self) -> u64
        ensures { result ≡ self.now.entry }
    {
        self.entry
    }

    /// What is known of all points, whatever the code is.
    pub fn known(&self)
        ensures { HasCode self.now }
    {
        let _ = &self.entry;
    }
}

// Where a point stands in a list whose points ascend.
fn search(points: &[CodePoint], point: &Point) -> Result<usize, usize>
    ensures within { IsSearchInRange result (length points.now) }
    ensures place { IsBinarySearchResult (λ c. point_cmp c.point point.now) points.now result }
{
    points.binary_search_by_key(point, |code| code.point)
}
