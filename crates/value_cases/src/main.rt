//! Reads rows over values as data, and prints what the library of values answers. A line of standard input is a JSON object of one kind:
//! `order` an array of values, each of which is compared with each; `spells` a text that may spell a whole number; `cast_int` and
//! `cast_text` a value; `table` a name and `number` a number of a table, `column` an array of a table's number and a place; `same` two
//! texts; `bytes` texts that are joined; `list` values, with `steps` over a copy of them; `keys` lists that are put into a map, each
//! under its place, with the list that is `asked`; `row` the values of a row, with a value that a copy of it `gains`, and `array` the
//! same of a row that is made of an array of ten or of twelve values. A value is null, a whole number or a text. Empty lines and lines
//! that begin with `#` are passed over. Each answer begins with the kind and what was given, as JSON.
#![tactic(auto)]

mod answer;
mod lists;
mod tables;
mod values;

use answer::Answers;
use case_text::print_told;
use std::io;

fn main(rt: HostRuntime) -> io::Result<()> {
    print_told(&rt, rt.alloc(), &mut Answers)
}
