// What the tables of the tests write.

pub const ZEROS: &str = "0000000000000000000000000000000000000000000000000000000000000000";

// The two parts of a text round what stands first between them, or the text and nothing.
pub fn parts<'a>(text: &'a str, between: &str) -> (&'a str, &'a str) {
    match text.split_once(between) {
        Some(sides) => sides,
        None => (text, ""),
    }
}
