// Texts cut at a byte, and compared with a word.
ghost use Rattle.std.specs.Prelude.{◌≡◌, IfNone, IfSome};
ghost use Rattle.std.specs.Str.{bytes_eq};
ghost use Rattle.cfa_base.specs.Lacking.{Lacks};
ghost use Rattle.cfa_rows.specs.Cuts.{IsCut};

/// What stands before the first place of a byte in a text, and behind it. `None` where the byte doesn't stand there.
pub fn cut(text: &[u8], byte: u8) -> Option<(&[u8], &[u8])>
    ensures some { IfSome result (λ parts. IsCut byte text.now parts.0.now parts.1.now) }
    ensures none { IfNone result (Lacks byte text.now) }
{
    let place = text.iter().position(|b| *b == byte)?;
    Some((&text[..place], &text[place + 1..]))
}

/// Whether a text is this word.
pub fn is_text(text: &[u8], word: &str) -> bool
    ensures { result ≡ bytes_eq text.now word.now }
{
    text == word.as_bytes()
}
