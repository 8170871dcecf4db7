// The record's header: three bytes that are one number, and the fields in it.
ghost use Rattle.std.specs.Prelude.{◌≡◌, ◌≤◌, ◌<◌, IfOk};
ghost use Rattle.record.specs.Leaf.{header_answer, header_from, header_bytes};
ghost use Rattle.record.specs.Format.{step_of_code, code_of};

use crate::Header;
use grid::{Kind, Refusal, check_grid, require};

// LENGTH where under 3 bytes, EDITION, RESERVED, START, COUNT.
#[tactic(auto, unfolding(crate::specs::Answer::header_check))]
pub fn read_header(bytes: &[u8]) -> Result<Header, Refusal>
    ensures value { result ≡ header_answer bytes.now }
    ensures count { IfOk result (λ header. (1 ≤ header.count) × (header.count ≤ 531)) }
{
    require(3 <= bytes.len(), Kind::Length)?;
    header_from(u32::from_be_bytes([0, bytes[0], bytes[1], bytes[2]]))
}

// EDITION, RESERVED, START, COUNT, of the number that a header's bytes make.
fn header_from(number: u32) -> Result<Header, Refusal>
    ensures value { result ≡ header_from number }
    ensures count { IfOk result (λ header. (1 ≤ header.count) × (header.count ≤ 531)) }
{
    require(number / 1048576 == 1, Kind::Edition)?;
    require(number % 2 == 0, Kind::Reserved)?;
    let start = 300 + number / 2048 % 128;
    let step = step_of(number / 262144 % 4);
    let count = number / 2 % 1024;
    check_grid(start, step, count as usize)?;
    Ok(Header { start, step, count })
}

// A step's code and back, in the order of the format; a step is a number here, as it is in the header that callers get.
fn step_of(code: u32) -> u32
    ensures { result ≡ step_of_code code }
{
    match code {
        0 => 1,
        1 => 2,
        2 => 5,
        _ => 10,
    }
}

fn code_of(step: u32) -> u32
    ensures { (result ≡ code_of step) × (result < 4) }
{
    match step {
        1 => 0,
        2 => 1,
        5 => 2,
        _ => 3,
    }
}

// The number whose bits are the header's fields, as bytes.
pub fn header_bytes(start: u32, step: u32, count: usize) -> [u8; 3]
    requires { (300 ≤ start) × (start ≤ 380) × (count < 1024) }
    ensures { result ≡ header_bytes start step count }
{
    let number = 1048576 + code_of(step) * 262144 + (start - 300) * 2048 + count as u32 * 2;
    let [_, first, second, third] = number.to_be_bytes();
    [first, second, third]
}
