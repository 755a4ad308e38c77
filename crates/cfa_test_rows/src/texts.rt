// The files of a row: its policy, and the files beside it.
use crate::reports::Report;
use cfa_base::{Bytes, Name};
use std::alloc::Global;

/// The first of each name stands.
pub type Files = Vec<(Name, Bytes)>;

/// The two parts of a text round what stands first between them, or the text and nothing.
pub fn parts<'a>(text: &'a str, between: &str) -> (&'a str, &'a str) {
    text.split_once(between).unwrap_or((text, ""))
}

// Adds the line behind `* FROM TO ` for each number from the first on that is below the second, with the next number in the place of
// `##`, and the number in that of `#`.
fn add_repeated(text: &mut String, repeated: &str, report: &mut Report) {
    let (from, rest) = parts(repeated, " ");
    let (to, line) = parts(rest, " ");
    for number in report.number(from)..report.number(to) {
        let next = report.digits(number.saturating_add(1));
        let number = report.digits(number);
        let line = report.replaced(line, "##", next.as_str());
        let line = report.replaced(line.as_str(), "#", number.as_str());
        report.add(text, &[line.as_str(), "\n"]);
    }
}

/// Adds a line of a text, which may stand for many lines.
pub fn add_line(text: &mut String, line: &str, report: &mut Report) {
    match line.strip_prefix("* ") {
        Some(repeated) => add_repeated(text, repeated, report),
        None => report.add(text, &[line, "\n"]),
    }
}

fn push_file(alloc: Global, files: &mut Files, name: &str, bytes: &[u8]) -> Option<()> {
    let name = Name::from_text(alloc, name).ok()?;
    let bytes = Bytes::from_slice(alloc, bytes).ok()?;
    files.push((name, bytes)).ok()
}

/// Adds a file of these bytes.
pub fn add_file(files: &mut Files, name: &str, bytes: &[u8], report: &mut Report) {
    let is_added = push_file(report.alloc, files, name, bytes).is_some();
    report.require(is_added, name);
}

// Adds a file of lines, the last of them without a newline.
fn add_lines(files: &mut Files, name: &str, lines: &str, report: &mut Report) {
    let mut text = String::new(report.alloc);
    for line in lines.split("\n") {
        add_line(&mut text, line, report);
    }
    let text = text.as_str().strip_suffix("\n").unwrap_or("");
    add_file(files, name, text.as_bytes(), report);
}

// Adds a file: `NAME` and its lines, `long NAME SIZE` of so many letters, or `raw NAME`, whose last byte, in the second line, begins a
// character that isn't there. In front of it stands a byte that begins no token.
fn add_told(files: &mut Files, file: &str, report: &mut Report) {
    let (first, lines) = parts(file, "\n");
    let (kind, rest) = parts(first, " ");
    let (name, size) = parts(rest, " ");
    match kind {
        "raw" => add_file(files, name, b"%\n'\xc3\xa9 \xc3".as_slice(), report),
        "long" => {
            let letters = report.letters(size);
            add_file(files, name, letters.as_str().as_bytes(), report);
        }
        _ => add_lines(files, first, lines, report),
    }
}

/// The files that stand in a heading behind its policy, each behind `& `.
pub fn files_of(heading: &str, report: &mut Report) -> Files {
    let mut files = Vec::new(report.alloc);
    if let Some((_, behind)) = heading.split_once("\n& ") {
        for file in behind.split("\n& ") {
            add_told(&mut files, file, report);
        }
    }
    files
}
