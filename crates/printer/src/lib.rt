// A report from a reader to a writer: what the programs share.
#![tactic(auto)]

ghost use Rattle.std.specs.Prelude.{◌≡◌, ◌≤◌, IfOk, length};
ghost use Rattle.page.specs.Report.{report_of};
ghost use Rattle.page.specs.Answer.{text_after};

use page::write_report;
use std::io::{self, Read, Write};

/// Reads one record, at most 1,332 bytes, which is already longer than any, and writes its report.
#[tactic(auto, using(page::proofs::Length::most, std::proofs::lemmas::Grind::common_steps))]
pub fn print_report<R: Read, W: Write>(from: &mut R, to: &mut W) -> io::Result<()> {
    let mut bytes = [0u8; 1332];
    let count = read_full(from, &mut bytes)?;
    let mut text = [0u8; 99];
    let length = report_length(&bytes[..count], &mut text);
    to.write_all(&text[..length])
}

// Reads until the buffer is full or nothing more comes, and gives how many bytes that was. The room is fixed: a read to the end
// would ask for memory.
fn read_full<R: Read>(from: &mut R, bytes: &mut [u8]) -> io::Result<usize>
    ensures { IfOk result (λ count. count ≤ length bytes.new) }
{
    let mut count = 0;
    while count < bytes.len() {
        match from.read(&mut bytes[count..])? {
            0 => return Ok(count),
            more => count += more,
        }
    }
    Ok(count)
}

// Writes the report and gives its length, as `write_report` says it. A text of 99 bytes has room for any, so there is no refusal to
// give 0 for.
#[tactic(auto, using(page::proofs::Length::written))]
fn report_length(bytes: &[u8], text: &mut [u8]) -> usize
    requires { 99 ≤ length text.old }
    ensures value { result ≡ length (report_of bytes.now) }
    ensures text_after { text.new ≡ text_after bytes.now text.old }
{
    write_report(bytes, text).unwrap_or(0) as usize
}
