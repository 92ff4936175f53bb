// Decimals taken from a table of the figures of numbers below 1000: there is no branch on how many figures a number has.

ghost use Rattle.std.specs.Prelude.{◌+◌, ◌*◌, ◌<◌, ◌≡◌, length};
ghost use Rattle.decimal.specs.Decimal.{decimal};
ghost use Rattle.decimal.specs.Code.{joined, Figures};

// The figures of each number below 1000, filled in: three figures with zeros before them, the first in the lowest byte, and in the
// highest byte how many figures the number has.
pub fn fill_table(table: &mut [u32])
    requires { length table.old ≡ 1000 }
    ensures { Figures table.new }
{
    for (k, entry) in table.iter_mut().enumerate() {
        let k = k as u32;
        let many = 1 + (k >= 10) as u32 + (k >= 100) as u32;
        *entry = 0x303030 + k / 100 + k / 10 % 10 * 256 + k % 10 * 65536 + many * 16777216;
    }
}

// A table that is filled in.
#[derive(Clone, Copy)]
pub struct Table<'a> {
    pub entries: &'a [u32],
    pub ghost figures: { Figures entries.now },
}

impl Table<'_> {
    // The decimal of a number below a million in one number: its figures, the first in the lowest byte, and in the highest byte how many
    // there are.
    pub fn pack_decimal(self, n: u32) -> u64
        requires { n < 1000000 }
        ensures { result ≡ joined (decimal n) + 72057594037927936 * length (decimal n) }
    {
        let high = self.entries[(n / 1000) as usize];
        let low = self.entries[(n % 1000) as usize];
        let mut many = 3 + high / 16777216;
        if n < 1000 {
            many = low / 16777216;
        }
        let x = (low % 16777216) as u64 * 16777216 + (high % 16777216) as u64;
        (x >> (48 - 8 * many)) + many as u64 * 72057594037927936
    }
}
