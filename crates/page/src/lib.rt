// The report page: what a record says of its light, as text.
#![tactic(auto)]

mod lines;

ghost use Rattle.std.specs.Prelude.{◌≡◌, length};
ghost use Rattle.page.specs.Recorded.{recorded_figures};
ghost use Rattle.page.specs.Answer.{report_answer, text_after};

use crate::lines::{Page, push_report};
use grid::{Kind, Refusal, require};
use readings::figures::{ReportFigures, figures};
use record::unpack_record;

/// Writes a record's report to the front of the lent text, and gives its length. A refused record has a report too, so the only refusal
/// is ROOM, which leaves the text as it was; 99 bytes are room for any report.
pub fn write_report(bytes: &[u8], text: &mut [u8]) -> Result<u32, Refusal>
    ensures value { result ≡ report_answer bytes.now (length text.old) }
    ensures text_after { text.new ≡ text_after bytes.now text.old }
{
    let mut page = Page::new();
    push_report(&mut page, recorded_figures(bytes));
    let report = page.as_str().as_bytes();
    let length = report.len();
    require(length <= text.len(), Kind::Room)?;
    text[..length].copy_from_slice(report);
    Ok(length as u32)
}

// A record's figures, or its refusal. Its samples are checked where the figures are made, and not twice.
#[tactic(auto, using(crate::proofs::Unpacked::unpack_refused, crate::proofs::Unpacked::unpack_given))]
fn recorded_figures(bytes: &[u8]) -> Result<ReportFigures, Refusal>
    ensures { result ≡ recorded_figures bytes.now }
{
    let mut row = [0u32; 531];
    let header = unpack_record(bytes, &mut row)?;
    figures(header.start, header.step, &row[..header.count as usize])
}
