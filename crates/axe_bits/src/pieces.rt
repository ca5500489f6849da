//! Lists in pieces of one width.
ghost use Rattle.std.specs.Prelude.{◌≡◌, ◌+◌, ◌*◌, ◌^◌, ◌<◌, ◌≤◌};

/// Where the piece at an index begins, in a list of so many pieces of one width.
#[inline]
pub fn start_of(index: usize, width: usize, count: usize) -> usize
    requires within { index < count }
    requires fits { count * width < 2 ^ 64 }
    ensures start { result ≡ index * width }
    ensures end { result + width ≤ count * width }
{
    index * width
}
