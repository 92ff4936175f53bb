// The length of a record, by its letter and its counts.

ghost use Rattle.std.specs.Prelude.{◌+◌, ◌*◌, ◌≤◌, ◌≡◌, length};
ghost use Rattle.record_walk.specs.Code.{record_size, item_size};

// A rule's record with these counts has so many bytes.
fn size_for(heads: u8, positives: u8, nafs: u8) -> usize
    ensures { result ≡ 7 + 5 * (heads + positives + nafs) }
{
    7 + 5 * (heads as usize + positives as usize + nafs as usize)
}

// The length of the rule's record at the part's start.
pub fn record_size(t: &[u8]) -> usize
    requires { 7 ≤ length t.now }
    ensures { result ≡ record_size t.now }
{
    size_for(t[4], t[5], t[6])
}

// The length of the item's record at the part's start: a sheet record's is fixed.
pub fn item_size(t: &[u8]) -> usize
    requires { 7 ≤ length t.now }
    ensures { result ≡ item_size t.now }
{
    let letter = t[0];
    match letter {
        b'O' => 6,
        b'X' => 12,
        _ => record_size(t),
    }
}
