// The line of the table for a pattern's text.
ghost use Rattle.figures.specs.Delivering.{Delivers};
ghost use Rattle.jobs.specs.Lines.{Tabled, line_of, TableLine};

use crate::counting::count_text;
use alf::Rules;
use basics::Refusal;
use matcher::tables::Total;
use table_lines::lines::{write_line, write_refused};

// What is counted of a pattern, and what came of writing its line.
#[derive(Clone, Copy)]
pub struct Line {
    pub counted: Result<Total, Refusal>,
    pub written: Result<usize, Refusal>,
}

// The line of what is counted; its length. Refused with 9.
fn write_counted(
    text: &[u8],
    n: usize,
    counted: Result<Total, Refusal>,
    out: &mut [u8],
) -> Result<usize, Refusal>
    requires { Tabled n counted }
    ensures { Delivers (line_of text.now n counted) out.old out.new result }
{
    match counted {
        Ok(t) => write_line(text, t, n as u32, out),
        Err(r) => write_refused(text, r, out),
    }
}

// The totals of a pattern's text on a trace, and the line with them; where the pattern is refused, the line that says
// so.
pub fn table_line(
    rules: Rules,
    names: &[u8],
    n: usize,
    states: &[u8],
    text: &[u8],
    out: &mut [u8],
) -> Line
    ensures { TableLine rules names.now n states.now text.now
        out.old
        out.new result }
{
    let counted = count_text(rules, names, n, states, text);
    let written = write_counted(text, n, counted, out);
    Line { counted, written }
}
