// Words and names, as tokens, references and class texts have them.
ghost use Rattle.std.specs.Prelude.{◌≡◌, length};
ghost use Rattle.std.specs.List.{list_all, position_or_len, take_while};
ghost use Rattle.cfa_base.specs.Lexing.{is_word_byte, is_word, is_dot, is_name, closing_of};

/// Whether a byte is an ASCII letter, a digit or an underscore.
pub fn is_word_byte(byte: u8) -> bool
    ensures { result ≡ is_word_byte byte }
{
    matches!(byte, b'0'..=b'9' | b'A'..=b'Z' | b'_' | b'a'..=b'z')
}

/// How many bytes of a word stand at the front.
pub fn word_len(bytes: &[u8]) -> usize
    ensures { result ≡ length (take_while is_word_byte bytes.now) }
{
    bytes.iter().take_while(|byte| is_word_byte(**byte)).count()
}

fn are_word_bytes(text: &[u8]) -> bool
    ensures { result ≡ list_all is_word_byte text.now }
{
    text.iter().all(|byte| is_word_byte(*byte))
}

/// Whether a text is a word: one or more such bytes.
pub fn is_word(text: &[u8]) -> bool
    ensures { result ≡ is_word text.now }
{
    !text.is_empty() && are_word_bytes(text)
}

// How many bytes stand before the first dot, or all where none does.
fn len_before_dot(text: &[u8]) -> usize
    ensures { result ≡ position_or_len is_dot text.now }
{
    text.iter().take_while(|byte| **byte != b'.').count()
}

/// Whether a text is a name: a word, or two words with a dot between them.
pub fn is_name(text: &[u8]) -> bool
    ensures { result ≡ is_name text.now }
{
    let dot = len_before_dot(text);
    is_word(text) || (dot < text.len() && is_word(&text[..dot]) && is_word(&text[dot + 1..]))
}

/// The bracket that closes an opening one: `)` for `(` and `}` for `{`.
pub fn closing_bracket(opening: u8) -> Option<u8>
    ensures { result ≡ closing_of opening }
{
    match opening {
        b'(' => Some(b')'),
        b'{' => Some(b'}'),
        _ => None,
    }
}
