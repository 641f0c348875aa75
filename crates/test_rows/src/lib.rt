//! Tables of calls, for programs that test: each row has a call, its inputs and what it must answer, and for each row a
//! line is printed: its name and `ok`, or its name and what was answered.
//!
//! A table is a file. A line of it that begins with `let` names a piece of text, one that begins with `row` is a row: its
//! name, the call, the answer that is wanted, and the inputs. Each other line is a comment. The parts of a line are
//! separated by tabs. Where a wanted answer ends in three points, the answer has to begin with what stands before them.
//!
//! Pieces stand in a row by their names. `<NAME ONE|TWO>` is the piece NAME with ONE and TWO in place of its `$1` and
//! `$2`; what comes of it may have such places in turn, and the last one in the text is taken first. Three names are the
//! table's own: `<edit NAME|OLD|NEW>` is the piece NAME with NEW in place of the first OLD; `<many COUNT|NAME|REST>` is so
//! many of `<NAME ..>` with commas between them; `<letters LETTERS>` is one of `<task-LETTER ..>` for each letter. Each of
//! those has its number from 0 on in four forms: decimal, four hexadecimal digits, three decimal digits, hexadecimal
//! digits; then the rest. At last `¶` is a line end.
#![tactic(auto)]

mod digits;
mod pieces;
mod tables;

pub use digits::{bytes_of_digits, put_bytes, put_digits};
pub use pieces::{first, number};
pub use tables::{Calls, show_tables};
