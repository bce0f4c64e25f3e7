//! How far sp goes down.

ghost use Rattle.std.specs.Prelude.{◌≡◌, ◌++◌, ◌∷◌, [], List, IfOk, OnOk};
ghost use Rattle.entry_tables.specs.declared.rows.Point.{Point};
ghost use Rattle.abi_verdicts.specs.Depths.{is_by_sp, bytes_below, deeper, depth_of, level, levels_of, no_depth, depth_by};

use crate::depth::{Depth, Level};
use entry_tables::Point;
use entry_values::{Memory, Value};
use entry_walks::value_in;
use sqlite_items::Items;
use std::alloc::Global;

/// The values of sp at some points.
pub fn levels(alloc: Global, points: &[Point]) -> Result<Items<Level>, Memory>
    ensures { IfOk result (λ all. all ≡ levels_of points.now) }
{
    let mut all = Items::new(alloc);
    for point in points {
        push(&mut all, level(point))?;
    }
    Ok(all)
}

fn level(point: &Point) -> Level
    ensures { result ≡ level point.now }
{
    Level {
        procedure: point.procedure,
        sp: value_in(&point.state.values, 2),
    }
}

fn push(all: &mut Items<Level>, one: Level) -> Result<(), Memory>
    ensures { OnOk result (all.new ≡ all.old ++ one ∷ []) }
{
    match all.push(one) {
        Ok(()) => Ok(()),
        Err(_) => Err(Memory),
    }
}

/// The depth over the points of a procedure, of which these are the values of sp.
pub fn depth_of(p: u64, levels: &[Level]) -> Depth
    ensures { (points : List Point) → levels.now ≡ levels_of points → result ≡ depth_of p points }
{
    let depth = depth_by(p, levels);
    depth
}

fn depth_by(p: u64, levels: &[Level]) -> Depth
    ensures { result ≡ depth_by p no_depth levels.now }
{
    let mut all = Depth {
        bytes: 0,
        known: true,
    };
    for level in levels {
        if level.procedure == p {
            all = deeper(level.sp, all);
        }
    }
    all
}

fn deeper(v: Value, all: Depth) -> Depth
    ensures { result ≡ deeper v all }
{
    let down = bytes_below(v);
    Depth {
        bytes: if all.bytes < down { down } else { all.bytes },
        known: all.known && is_by_sp(v),
    }
}

fn is_by_sp(v: Value) -> bool
    ensures { result ≡ is_by_sp v }
{
    match v {
        Value::Is(b, _) => b == 2,
        Value::Any(_, _) => false,
    }
}

fn bytes_below(v: Value) -> u64
    ensures { result ≡ bytes_below v }
{
    match v {
        Value::Is(2, k) if k >= 1 << 63 => k.wrapping_neg(),
        _ => 0,
    }
}
