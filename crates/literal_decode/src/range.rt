// Tags, atoms and rule numbers in their ranges.

ghost use Rattle.std.specs.Prelude.{◌≡◌};
ghost use Rattle.literal.specs.Literal.{in_range};
ghost use Rattle.literal.specs.Code.{in_span, unpacked};

use literal::{Limits, Ranges, Tag};

// From 1 to a largest value.
fn is_in_range(most: u64, n: u16) -> bool
    ensures { result ≡ in_range most n }
{
    1 <= n && n as u64 <= most
}

// Whether the form has the tag.
pub fn is_tag(lim: Limits, tag: Tag) -> bool
    ensures { result ≡ in_range lim.tags tag.0 }
{
    is_in_range(lim.tags as u64, tag.0)
}

// Whether a tag and a number may stand where these ranges are due.
pub fn are_in_ranges(ranges: Ranges, tag: Tag, number: u16) -> bool
    ensures { result ≡ in_span (unpacked ranges) tag.0 number }
{
    let bounds = ranges.0;
    let t = tag.0 as u64;
    if t < bounds / 4294967296 {
        return false;
    }
    if bounds / 65536 % 65536 < t {
        return false;
    }
    is_in_range(bounds % 65536, number)
}
