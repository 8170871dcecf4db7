// What stands behind the header: its length and its padding.
ghost use Rattle.std.specs.Prelude.{◌≡◌, ◌≤◌, length, nat_eq, OnOk};
ghost use Rattle.record.specs.Leaf.{shape_check};
ghost use Rattle.record.specs.Format.{length_of, padding_of};

use grid::{Kind, Refusal, require};

// The bytes of a record of so many samples.
pub fn length_of(count: usize) -> usize
    requires { count ≤ 531 }
    ensures { result ≡ length_of count }
{
    3 + (5 * count + 1) / 2
}

// LENGTH, PADDING, and ROOM where a row has fewer places than there are samples.
#[tactic(auto, unfolding(crate::specs::Leaf::shape_check))]
pub fn check_shape(bytes: &[u8], count: usize, room: usize) -> Result<(), Refusal>
    requires { (1 ≤ count) × (count ≤ 531) }
    ensures value { result ≡ shape_check count bytes.now room }
    ensures fine { OnOk result ((length bytes.now ≡ length_of count) × (count ≤ room)) }
{
    require(bytes.len() == length_of(count), Kind::Length)?;
    require(padding_is_clear(bytes, count), Kind::Padding)?;
    require(count <= room, Kind::Room)
}

// Whether the padding bits, if there are any, are 0.
fn padding_is_clear(bytes: &[u8], count: usize) -> bool
    requires { (1 ≤ count) × (length bytes.now ≡ length_of count) }
    ensures { result ≡ nat_eq (padding_of count bytes.now) 0 }
{
    count % 2 == 0 || bytes[bytes.len() - 1] % 16 == 0
}
