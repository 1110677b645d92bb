// Counters of 64 bits that stay at their end, and calls that fail by their numbers.
ghost use Rattle.std.specs.Prelude.{◌≡◌};
ghost use Rattle.herm_edge.specs.Faults.{next_count, is_next_failing};

// One more, where the type has room for it.
pub(crate) fn next_count(count: u64) -> u64
    ensures { result ≡ next_count count }
{
    count.saturating_add(1)
}

// Counts a call, and answers whether it is one that fails.
pub(crate) fn begin_call(failing: &[u64], calls: &mut u64) -> bool
    ensures fails { result ≡ is_next_failing failing.now calls.old }
    ensures counts { calls.new ≡ next_count calls.old }
{
    *calls = next_count(*calls);
    failing.contains(calls)
}
