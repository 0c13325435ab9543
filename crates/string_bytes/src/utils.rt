ghost use Rattle.std.specs.Prelude.{◌≡◌, ◌≤◌, length, take};
ghost use Rattle.string_view.specs.Places.{before, FirstAt};
ghost use Rattle.string_bytes.specs.Terminated.{is_nul};

// How many bytes stand before the first zero among the first `len`, or among all where there are fewer.
pub fn strnlen(bytes: &[u8], len: usize) -> usize
    ensures place { result ≡ before is_nul (take len bytes.now) }
    ensures first { FirstAt is_nul (take len bytes.now) result }
    ensures bound { result ≤ length bytes.now }
{
    let slot = &bytes[..len.min(bytes.len())];
    slot.iter()
        .position(|byte| *byte == 0)
        .unwrap_or(slot.len())
}
