// Tables, each in a file of the name `NAME.rows`: what it is about; behind a blank line what stands in front of its rows, which is
// nothing but where its reader says so; and its rows, each from `== ` and its title on. Rows that differ in a few texts are told
// once, with `<0>`, `<1>` .. where these stand, and as lines with the texts as fields: the lines stand in front of such a row, or
// behind the title of the frame that they go into, `== FRAME: TITLE`, which is the row in the file `FRAME.frame`. A `¶` of a field
// stands for a line break.
use crate::calls::Top;
use crate::reports::Report;
use crate::run_tables::{compare_row, compare_row_in, filled};
use crate::texts::parts;

// Compares a row by its reader, and tells what isn't met in it, or can't be read.
fn compare<T: Top>(reader: &str, name: &str, front: &str, row: &str, report: &mut Report) {
    match reader {
        "memory" | "framed" => compare_row::<T>(front, row, report),
        "folder" => compare_row_in::<T>(row, report),
        _ => report.require(false, reader),
    }
    report.tell(name, row);
}

// Compares the rows that a row stands for, one for each of these lines.
fn compare_filled<T: Top>(name: &str, lines: &str, row: &str, report: &mut Report) {
    for line in lines.lines() {
        let row = filled(row, line, report);
        compare::<T>("memory", name, "", row.as_str(), report);
    }
}

// Compares the rows of the lines behind the title of a frame.
fn compare_pieces<T: Top>(name: &str, titled: &str, report: &mut Report) {
    let (title, lines) = parts(titled, "\n");
    let (frame, _) = parts(title, ": ");
    let row = report.read(frame, ".frame");
    compare_filled::<T>(name, lines, row.as_str(), report);
}

fn compare_rows<T: Top>(reader: &str, name: &str, front: &str, rows: &str, report: &mut Report) {
    for row in rows.split("== ") {
        match reader {
            "filled" => compare_filled::<T>(name, front, row, report),
            "pieces" => compare_pieces::<T>(name, row, report),
            _ => compare::<T>(reader, name, front, row, report),
        }
    }
}

// There are rows, and nothing in front of them but where the reader wants lines with fields, or the text of a frame.
fn is_table(reader: &str, front: &str, rows: &str) -> bool {
    !rows.is_empty() && (front.is_empty() || matches!(reader, "filled" | "framed"))
}

// Compares the rows of a table, which is told by the word of its reader and its name, and prints their number and that of their calls.
fn run_table<T: Top>(told: &str, report: &mut Report) {
    let (reader, name) = parts(told, " ");
    let text = report.read(name, ".rows");
    let (_, text) = parts(text.as_str(), "\n\n");
    let (front, rows) = parts(text, "== ");
    if is_table(reader, front, rows) {
        compare_rows::<T>(reader, name, front, rows, report);
    } else {
        report.require(false, "rows");
    }
    report.tell(name, "the table");
    report.tell_numbers(told);
}

/// Compares the rows of the tables that the file `tables` lists, each by the word of its reader and its name, and prints what isn't met,
/// and behind each table the numbers of its rows and of their calls. Answers whether all could be printed. The files stand in the
/// folder where the program runs.
pub fn run_all<T: Top>(rt: HostRuntime) -> bool {
    let mut report = Report::new(rt);
    let tables = report.read("tables", "");
    report.tell("tables", "no list of tables");
    for told in tables.as_str().lines() {
        run_table::<T>(told, &mut report);
    }
    report.is_printed
}
