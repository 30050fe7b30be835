// Whether a code point may begin a name, or continue one: the classes XID_Start and XID_Continue of Unicode (UAX #31), by a search in their ranges.
#![tactic(auto)]

ghost use Rattle.std.specs.Prelude.{◌≡◌};
ghost use Rattle.xid.specs.Row.{all, frequent};
ghost use Rattle.xid.specs.Ranges.{holds};
ghost use Rattle.xid.specs.Classes.{is_start_lem, is_continue_lem, table_of};

mod continuation; // continuation.rt: the rows of XID_Continue
mod row; // row.rt: three ranges
mod start; // start.rt: the rows of XID_Start

use row::Row;

#[derive(Clone, Copy)]
enum Class {
    Start,
    Continuation,
}

// The rows of a class.
fn table(class: Class) -> &'static [Row]
    ensures { all result.now ≡ table_of class }
{
    match class {
        Class::Start => &start::ROWS,
        Class::Continuation => &continuation::ROWS,
    }
}

// Whether a range of the class holds c. The rows before lo lie below c, and those from hi on above it: the row in the middle decides, or halves what is left.
fn held(class: Class, c: u32) -> bool
    ensures { result ≡ holds (table_of class) c }
{
    let mut lo: usize = 0;
    let rows = table(class);
    let mut hi = rows.len();
    while lo < hi {
        let mid = lo + (hi - lo) / 2;
        let row = rows[mid];
        if c < row.0 {
            hi = mid;
        } else if row.5 < c {
            lo = mid + 1;
        } else {
            return row::within(row, c);
        }
    }
    false
}

// Whether c is one of the letters that names are expected to have, which need no search.
fn is_frequent(c: u32) -> bool
    ensures { result ≡ holds frequent c }
{
    row::within(Row(0x38E, 0x3A1, 0x3A3, 0x3F5, 0xAC00, 0xD7A3), c)
}

// Whether c is in XID_Start.
pub fn is_start(c: u32) -> bool
    ensures { result ≡ is_start_lem c }
{
    if is_frequent(c) {
        true
    } else {
        held(Class::Start, c)
    }
}

// Whether c is in XID_Continue.
pub fn is_continue(c: u32) -> bool
    ensures { result ≡ is_continue_lem c }
{
    if is_frequent(c) {
        true
    } else {
        held(Class::Continuation, c)
    }
}
