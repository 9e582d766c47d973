//! The writes of a byte between two places of the order.
ghost use Rattle.std.specs.Prelude.{◌≡◌, ◌≤◌, length, ltb};
ghost use Rattle.std.specs.List.{filter};
ghost use Rattle.std.specs.List.Sorted.{IsNonDecreasingBy};
ghost use Rattle.wm_event.specs.declared.writes.ByteWrite.{ByteWrite};
ghost use Rattle.wm_hb.specs.Between.{IsCountBelow, Rises, stands_between};

use wm_event::ByteWrite;

/// How many of the writes are before a place.
fn count_below(writes: &[ByteWrite], place: usize) -> usize
    requires { IsNonDecreasingBy (λ (b : ByteWrite). b.place) writes.now }
    ensures bound { result ≤ length writes.now }
    ensures parted { IsCountBelow place writes.now result }
{
    writes.partition_point(
        |write: &ByteWrite| -> bool
            ensures { result ≡ ltb write.now.place place }
        { write.place < place },
    )
}

/// The writes from one place of the order up to but not including another. Each write's place is before those of the
/// writes after it, as in `Candidate::byte_writes`.
pub fn part_between(writes: &[ByteWrite], start: usize, end: usize) -> &[ByteWrite]
    requires { Rises writes.now }
    ensures { result.now ≡ filter (stands_between start end) writes.now }
{
    let skipped = count_below(writes, start);
    let rest = &writes[skipped..];
    let count = count_below(rest, end);
    &rest[..count]
}
