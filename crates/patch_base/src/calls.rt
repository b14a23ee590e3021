// Calls by their numbers: which is listed, and which comes next.
ghost use Rattle.std.specs.Prelude.{◌≡◌};
ghost use Rattle.patch_base.specs.MemoryShelf.{is_listed as is_listed_call, call_after as number_after, one_more as count_after};

/// Whether a call is listed. One without a number isn't.
pub(crate) fn is_listed(failing: &[u64], call: Option<u64>) -> bool
    ensures { result ≡ is_listed_call failing.now call }
{
    match call {
        Some(call) => failing.contains(&call),
        None => false,
    }
}

/// The number of the call after one. None past the last number of 64 bits.
pub(crate) fn call_after(call: Option<u64>) -> Option<u64>
    ensures { result ≡ number_after call }
{
    call?.checked_add(1)
}

/// One more, or the same at the last value of the counter.
pub(crate) fn one_more(count: u64) -> u64
    ensures { result ≡ count_after count }
{
    count.saturating_add(1)
}
