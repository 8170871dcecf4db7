// What is printed of an input's record: written where there is little room, written whole, read back, and read again damaged.
ghost use Rattle.std.specs.Prelude.{◌≤◌, ◌<◌, length};

use crate::made::{Draws, Input};
use crate::shown::{answer, list, refused};
use record::Header;
use std::io;

pub(crate) fn record(rt: &impl Print, input: &Input, draws: &mut Draws) -> io::Result<()> {
    let (start, step, samples) = (input.start, input.step, input.samples());
    let room = draws.draw() as usize % 1332;
    let mut bytes = [0u8; 1331];
    let cramped = record::write_record(start, step, samples, &mut bytes[..room]);
    answer(rt, cramped.map(|length| [length]))?;
    print!(rt; " ")?;
    match record::write_record(start, step, samples, &mut bytes) {
        Ok(length) => written(rt, &mut bytes[..(length as usize).min(1331)], draws),
        Err(refusal) => refused(rt, refusal),
    }
}

// The length of the record and the sum of its bytes, what reading it gives, and what reading it damaged gives.
fn written(rt: &impl Print, bytes: &mut [u8], draws: &mut Draws) -> io::Result<()>
    requires { length bytes.old ≤ 1331 }
{
    let length = bytes.len();
    if length == 0 {
        return Ok(());
    }
    let sum = sum(bytes);
    print!(rt; "{length},{sum}")?;
    read(rt, bytes, 531)?;
    let place = place_from(draws.draw() as usize, length);
    let d = draws.draw();
    bytes[place] = ((bytes[place] as u64 + 1 + d % 255) % 256) as u8;
    let room = room_from(draws.draw() as usize);
    read(rt, &bytes[..length - d as usize / 255 % 2], room)
}

// A byte of the header, the last byte, or any.
fn place_from(d: usize, length: usize) -> usize
    requires { 0 < length }
    ensures { result < length }
{
    match d % 4 {
        1 => length - 1,
        3 => d / 4 % length,
        _ => d / 4 % 3 % length,
    }
}

fn room_from(d: usize) -> usize
    ensures { result ≤ 531 }
{
    if d % 2 == 0 { 531 } else { d / 2 % 532 }
}

// What reading a record gives in a row with so much room.
fn read(rt: &impl Print, bytes: &[u8], room: usize) -> io::Result<()>
    requires { room ≤ 531 }
{
    print!(rt; " ")?;
    let mut row = [0u32; 531];
    match record::read_record(bytes, &mut row[..room]) {
        Ok(Header { start, step, count }) => {
            list(rt, &[start, step, count])?;
            let sum = sum(&row[..(count as usize).min(531)]);
            print!(rt; ",{sum}")
        }
        Err(refusal) => refused(rt, refusal),
    }
}

fn sum<N: Copy + Into<u64>>(row: &[N]) -> u64 {
    row.iter()
        .fold(0, |sum: u64, number| sum.wrapping_add((*number).into()))
}
