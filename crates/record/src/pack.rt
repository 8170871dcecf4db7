// The samples into a record's bytes, two into five at a time.
ghost use Rattle.std.specs.Prelude.{◌≡◌, ◌+◌, ◌*◌, ◌/◌, length};
ghost use Rattle.grid.specs.Check.{Within};
ghost use Rattle.record.specs.Leaf.{body_of};

// Fills the bytes behind the header: the pairs' five each, and three for an odd last sample.
pub fn pack(samples: &[u32], bytes: &mut [u8])
    requires within { Within 1000000 samples.now }
    requires whole { length bytes.old ≡ (5 * length samples.now + 1) / 2 }
    ensures { bytes.new ≡ body_of samples.now }
{
    // By place: of chunks that are changed beside others nothing is known behind the loop.
    for j in 0..samples.len() / 2 {
        // The first 32 of two samples' 40 bits are one number, and the last 8 a fifth byte.
        let first = samples[2 * j];
        let second = samples[2 * j + 1];
        let [a, b, c, d] = (first * 4096 + second / 256).to_be_bytes();
        let at = 5 * j;
        bytes[at] = a;
        bytes[at + 1] = b;
        bytes[at + 2] = c;
        bytes[at + 3] = d;
        bytes[at + 4] = (second % 256) as u8;
    }
    if samples.len() % 2 == 1 {
        let [_, a, b, c] = (samples[samples.len() - 1] * 16).to_be_bytes();
        let at = bytes.len() - 3;
        bytes[at] = a;
        bytes[at + 1] = b;
        bytes[at + 2] = c;
    }
}
