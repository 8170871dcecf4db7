// Weighted sums over the whole nanometres 360 to 830.
ghost use Rattle.std.specs.Prelude.{◌≡◌, ◌+◌, ◌≤◌};
ghost use Rattle.grid.specs.Check.{Within};
ghost use Rattle.mixing.specs.Sum.{weighted, entry_of};
ghost use Rattle.tables.specs.Curves.{weight_of};
ghost use Rattle.tables.specs.Held.{Counts};

use tables::Curve;

/// The sum of weight times row, of a row that holds at most 10,000,000 at each place: a step times a sample, or a part of a panel's. The
/// bound is a clause: a type of its own would be cleared and copied, or be one more between a spectrum and its sums.
pub fn weigh(curve: Curve, row: &[u64; 471]) -> u128
    requires { Within 10000000 row.now }
    ensures sum { result ≡ weighted 471 (weight_of curve) (entry_of row.now) }
    ensures most { result ≤ 20000000000000000000000 }
{
    let table = curve.table();
    // Carried along: a stretch begins where the one before it ends.
    let mut sum: u128 = 0;
    let mut begin = 0;
    for stretch in table.stretches {
        sum += count(table.counts, row, begin, stretch.end) as u128 * stretch.unit as u128;
        begin = stretch.end;
    }
    sum
}

// The sum of counts times row over the places from `begin` on, below `end`, which passes no 64 bits.
fn count(counts: &[u64; 471], row: &[u64; 471], begin: usize, end: usize) -> u64
    requires in_order { begin ≤ end }
    requires inside { end ≤ 471 }
    requires counts { Counts counts.now }
    requires small { Within 10000000 row.now }
    ensures { result + weighted begin (entry_of counts.now) (entry_of row.now) ≡ weighted end (entry_of counts.now) (entry_of row.now) }
{
    let mut sum: u64 = 0;
    // By place, as the sum is defined; a chain of pairs would have to say of each sum on its way that it fits.
    for k in begin..end {
        // Both are below 2^32 as they stand; the remainders say so to the compiler, which then takes several places at a time.
        sum += counts[k] % 4294967296 * (row[k] % 4294967296);
    }
    sum
}
