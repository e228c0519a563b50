// The first pass over a file, whole: nothing is written.
ghost use Rattle.trace_reader.specs.Checking.{Checked};

use crate::Size;
use basics::Refusal;
use record_checks::checks::{check_record, pass_name, pass_row};
use record_checks::rows::pass_rows;
use record_checks::{Cursor, Record};

// The whole file: how many names and rows it has, or the refusal of the first record that is not good.
pub fn check_file(file: &[u8]) -> Result<Size, Refusal>
    ensures { Checked file.now result }
{
    let mut s = Cursor {
        place: 0,
        names: 0,
        rows: 0,
        last: 0,
    };
    loop {
        s = pass_rows(file, s);
        s = match check_record(file, s)? {
            Record::Name => pass_name(file, s),
            Record::Row(w) => pass_row(file, s, w),
            Record::End => {
                return Ok(Size {
                    names: s.names,
                    rows: s.rows,
                });
            }
        };
    }
}
