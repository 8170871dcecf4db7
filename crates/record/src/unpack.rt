// The samples out of a record's bytes, two out of five at a time.
ghost use Rattle.std.specs.Prelude.{◌≡◌, length};
ghost use Rattle.record.specs.Format.{length_of, samples_of};

// Fills the row with the record's samples: the pairs, and an odd last one out of the last three bytes.
pub fn unpack(bytes: &[u8], row: &mut [u32])
    requires { length bytes.now ≡ length_of (length row.old) }
    ensures { row.new ≡ samples_of (length row.old) bytes.now }
{
    // By place: of chunks that are changed beside others nothing is known behind the loop.
    for j in 0..row.len() / 2 {
        // The first 32 of two samples' 40 bits are one number, and the last 8 a fifth byte.
        let at = 3 + 5 * j;
        let number = u32::from_be_bytes([bytes[at], bytes[at + 1], bytes[at + 2], bytes[at + 3]]);
        row[2 * j] = number / 4096;
        row[2 * j + 1] = number % 4096 * 256 + bytes[at + 4] as u32;
    }
    if row.len() % 2 == 1 {
        let at = bytes.len() - 3;
        let last = row.len() - 1;
        row[last] = u32::from_be_bytes([0, bytes[at], bytes[at + 1], bytes[at + 2]]) / 16;
    }
}
