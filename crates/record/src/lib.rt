// The packed record: a spectrum's start, step and samples in as few bits as they need.
#![tactic(auto)]

mod body;
mod head;
mod pack;
mod unpack;

ghost use Rattle.std.specs.Prelude.{◌≡◌, ◌≤◌, length, IfOk};
ghost use Rattle.record.specs.Answer.{read_answer, row_after, write_answer, bytes_after};
ghost use Rattle.record.specs.Leaf.{unpack_answer, row_unpacked};

use grid::rows::check_limit;
use grid::{Kind, Refusal, check_spectrum, require};

/// What a record's header says of its spectrum.
#[derive(Clone, Copy, Debug, PartialEq, Eq)]
pub struct Header {
    pub start: u32,
    pub step: u32,
    pub count: u32,
}

/// Reads a record's samples into the front of the lent row, and gives its header. Refused, in this order: LENGTH where under 3 bytes,
/// EDITION, RESERVED, START, COUNT, LENGTH, PADDING, SAMPLE, ROOM. A refusal leaves the row as it was.
pub fn read_record(bytes: &[u8], samples: &mut [u32]) -> Result<Header, Refusal>
    ensures value { result ≡ read_answer bytes.now (length samples.old) }
    ensures samples_after { samples.new ≡ row_after bytes.now samples.old }
{
    // The samples are checked in an own row, since a refusal leaves the lent one as it was.
    let mut row = [0u32; 531];
    let header = unpack_record(bytes, &mut row)?;
    let count = header.count as usize;
    check_limit(&row[..count])?;
    require(count <= samples.len(), Kind::Room)?;
    samples[..count].copy_from_slice(&row[..count]);
    Ok(header)
}

/// Unpacks a record, whatever its samples are, into the front of the lent row, and gives its header. Refused, in this order: LENGTH
/// where under 3 bytes, EDITION, RESERVED, START, COUNT, LENGTH, PADDING, ROOM. A refusal leaves the row as it was.
pub fn unpack_record(bytes: &[u8], row: &mut [u32]) -> Result<Header, Refusal>
    ensures value { result ≡ unpack_answer bytes.now (length row.old) }
    ensures row_unpacked { row.new ≡ row_unpacked bytes.now row.old }
    ensures count { IfOk result (λ header. (header.count ≤ 531) × (header.count ≤ length row.old)) }
{
    let header = head::read_header(bytes)?;
    let count = header.count as usize;
    body::check_shape(bytes, count, row.len())?;
    unpack::unpack(bytes, &mut row[..count]);
    Ok(header)
}

/// Writes a spectrum's record to the front of the lent bytes, and gives its length. Refused, in this order: STEP, START, COUNT, SAMPLE,
/// ROOM. A refusal leaves the bytes as they were.
pub fn write_record(
    start: u32,
    step: u32,
    samples: &[u32],
    bytes: &mut [u8],
) -> Result<u32, Refusal>
    ensures value { result ≡ write_answer start step samples.now (length bytes.old) }
    ensures bytes_after { bytes.new ≡ bytes_after start step samples.now bytes.old }
{
    check_spectrum(start, step, samples)?;
    let length = body::length_of(samples.len());
    require(length <= bytes.len(), Kind::Room)?;
    bytes[..3].copy_from_slice(&head::header_bytes(start, step, samples.len()));
    pack::pack(samples, &mut bytes[3..length]);
    Ok(length as u32)
}
