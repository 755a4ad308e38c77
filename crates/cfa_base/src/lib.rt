//! Names, byte strings, keys, places and token kinds: the words that every other crate speaks in.
#![tactic(auto)]

mod byte_strings;
mod decimals;
mod escapes;
mod index;
mod keys;
mod limits;
mod octal;
mod parts;
mod patterns;
mod places;
mod text_maps;
mod texts;
mod tokens;
mod want_of_memory;
mod words;

pub use byte_strings::Bytes;
pub use decimals::{are_digits, is_decimal};
pub use escapes::{FieldErr, escape, escape_bytes, fields_tell_texts, unescape, unescape_bytes};
pub use index::{NameIndex, PairIndex};
pub use keys::Key;
pub use limits::{
    LAST_MOMENT, MOST_COMBINATIONS, MOST_FILE_BYTES, MOST_INPUTS, MOST_SOURCE_BYTES,
    MOST_TEXT_BYTES,
};
pub use octal::{are_octal_digits, octal_digit};
pub use parts::Parts;
pub use patterns::{CompiledPattern, How, Matcher, Pattern, PatternErr, Patterns};
pub use places::{Place, PromiseId, is_before};
pub use text_maps::TextMap;
pub use texts::{Name, Names, are_same_names, copy_name, is_same_name};
pub use tokens::Kind;
pub use want_of_memory::NoMemory;
pub use words::{closing_bracket, is_name, is_word, is_word_byte, word_len};
