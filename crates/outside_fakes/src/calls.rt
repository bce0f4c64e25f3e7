//! The calls of a file or a sink in memory, of which some are to fail.
ghost use Rattle.std.specs.Prelude.{◌≡◌, ◌↔◌, Contains, IsTrue};
ghost use Rattle.outside.specs.Counts.{one_more};

/// Counts one more call, and says whether it is to fail: whether its number stands in `fails`.
pub(crate) fn next_fails(calls: &mut u64, fails: &[u64]) -> bool
    ensures count { calls.new ≡ one_more calls.old }
    ensures answer { IsTrue result ↔ Contains fails.now calls.new }
{
    *calls = calls.saturating_add(1);
    fails.contains(calls)
}
