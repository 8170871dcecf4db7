// The report's lines, on a page of its own.
ghost use Rattle.std.specs.Prelude.{◌≡◌, ◌+◌, ◌++◌, ◌≤◌, length, decimal};
ghost use Rattle.arrayvec.specs.ArrayString.{array_string_len};
ghost use Rattle.page.specs.Report.{coordinate, line, colour_lines, figure_lines, numbered, text_of};
ghost use Rattle.page.specs.Shown.{shown_text};

use answers::Xy;
use arrayvec::ArrayString;
use grid::{Kind, Refusal};
use itoa::Buffer;
use readings::figures::ReportFigures;

/// A report in the making. It has more room than any takes, so that no line need know how few digits its number has; each
/// of those that push asks for the room that it may take at most.
pub type Page = ArrayString<256>;

// What a line shows behind its word, so that every line is pushed by one function.
#[derive(Clone, Copy, Debug)]
enum Shown {
    Number(u32),
    Coordinate(u32),
    Refused(Refusal),
}

/// The seven lines, or the one line of a refusal, on an empty page. It is lent: one that is given would be cleared and copied on its
/// way.
pub fn push_report(page: &mut Page, answer: Result<ReportFigures, Refusal>)
    requires { array_string_len page.old ≡ 0 }
    ensures { page.new.bytes ≡ text_of answer }
{
    match answer {
        Ok(figures) => push_figures(page, figures),
        Err(refusal) => push_line(page, "refused ", Shown::Refused(refusal)),
    }
}

fn push_figures(page: &mut Page, figures: ReportFigures)
    requires { array_string_len page.old ≡ 0 }
    ensures { page.new.bytes ≡ page.old.bytes ++ figure_lines figures }
{
    push_line(page, "photopic ", Shown::Number(figures.photopic));
    push_line(page, "scotopic ", Shown::Number(figures.scotopic));
    push_line(page, "X ", Shown::Number(figures.xyz.x));
    push_line(page, "Y ", Shown::Number(figures.xyz.y));
    push_line(page, "Z ", Shown::Number(figures.xyz.z));
    push_colour(page, figures.xy);
}

// x and y, or a dash for each where they are dark.
fn push_colour(page: &mut Page, xy: Result<Xy, Refusal>)
    requires { array_string_len page.old + 54 ≤ 256 }
    ensures { page.new.bytes ≡ page.old.bytes ++ colour_lines xy }
{
    match xy {
        Ok(xy) => {
            push_line(page, "x ", Shown::Coordinate(xy.x));
            push_line(page, "y ", Shown::Coordinate(xy.y));
        }
        Err(_) => page.push_str("x -\ny -\n"),
    }
}

// A word, what it shows, and the newline: at most 25 bytes behind the word. Where it is called the compiler knows the word, and
// that it lies apart from the page, so it needs no function from outside that copies what may overlap.
#[inline(always)]
fn push_line(page: &mut Page, word: &str, shown: Shown)
    requires { array_string_len page.old + length word.now + 25 ≤ 256 }
    ensures text { page.new.bytes ≡ page.old.bytes ++ line word.now (shown_text shown) }
    ensures short { array_string_len page.new ≤ array_string_len page.old + length word.now + 25 }
{
    page.push_str(word);
    match shown {
        Shown::Number(n) => push_number(page, n),
        Shown::Coordinate(n) => push_coordinate(page, n),
        Shown::Refused(refusal) => push_refusal(page, refusal),
    }
    page.push_str("\n");
}

fn push_number(page: &mut Page, n: u32)
    requires { array_string_len page.old + 10 ≤ 256 }
    ensures text { page.new.bytes ≡ page.old.bytes ++ decimal n }
    ensures short { array_string_len page.new ≤ array_string_len page.old + 10 }
{
    page.push_str(Buffer::new().format(n));
}

// So many hundred-thousandths, by their digits, as the rules have them: a float would be rounded.
#[tactic(auto, using(std::proofs::lemmas::Fmt::decimal_nonempty))]
fn push_coordinate(page: &mut Page, n: u32)
    requires { array_string_len page.old + 24 ≤ 256 }
    ensures text { page.new.bytes ≡ page.old.bytes ++ coordinate n }
    ensures short { array_string_len page.new ≤ array_string_len page.old + 24 }
{
    push_number(page, n / 100_000);
    page.push_str(".");
    // The 1 in front keeps the zeros behind the point.
    let mut buffer = Buffer::new();
    let places = buffer.format(100_000 + n % 100_000);
    page.push_str(&places[1..]);
}

// A refusal's number, and its place for SAMPLE only: a page's text of it, where another program has its own.
fn push_refusal(page: &mut Page, refusal: Refusal)
    requires { array_string_len page.old + 24 ≤ 256 }
    ensures text { page.new.bytes ≡ page.old.bytes ++ numbered refusal }
    ensures short { array_string_len page.new ≤ array_string_len page.old + 24 }
{
    push_number(page, refusal.number());
    if refusal.kind == Kind::Sample {
        page.push_str(" at ");
        push_number(page, refusal.place);
    }
}
