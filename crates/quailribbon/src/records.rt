// Reading, writing and reporting a packed record, for C.
ghost use Rattle.std.specs.Prelude.{◌≡◌, length};
ghost use Rattle.record.specs.Answer.{read_answer, row_after, write_answer, bytes_after};
ghost use Rattle.page.specs.Answer.{report_answer, text_after};
ghost use Rattle.record.specs.Said.{said_read, said_written};
ghost use Rattle.page.specs.Said.{said_reported};
ghost use Rattle.quailribbon.specs.Records.{flat_record, flat_written};

use crate::flat::{QrRecord, QrWritten};

#[unsafe(no_mangle)]
pub extern "C" fn qr_read_record(bytes: &[u8], samples: &mut [u32]) -> QrRecord
    ensures value { result ≡ flat_record (said_read (read_answer bytes.now (length samples.old))) }
    ensures samples_after { samples.new ≡ row_after bytes.now samples.old }
{
    record::read_record(bytes, samples).into()
}

#[unsafe(no_mangle)]
pub extern "C" fn qr_write_record(
    start: u32,
    step: u32,
    samples: &[u32],
    bytes: &mut [u8],
) -> QrWritten
    ensures value { result ≡ flat_written (said_written (write_answer start step samples.now (length bytes.old))) }
    ensures bytes_after { bytes.new ≡ bytes_after start step samples.now bytes.old }
{
    record::write_record(start, step, samples, bytes).into()
}

#[unsafe(no_mangle)]
pub extern "C" fn qr_report(bytes: &[u8], text: &mut [u8]) -> QrWritten
    ensures value { result ≡ flat_written (said_reported (report_answer bytes.now (length text.old))) }
    ensures text_after { text.new ≡ text_after bytes.now text.old }
{
    page::write_report(bytes, text).into()
}
