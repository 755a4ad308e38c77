// Fields in their written form, and texts that are none.
use cfa_base::{FieldErr, Name, escape, unescape};
use std::alloc::Global;
use std::process::Abort;
use std::test::Fail;

// The text is written as the field, which reads as the text.
fn check(rt: &impl Abort, alloc: Global, text: &str, field: &str) -> Result<(), Fail> {
    let made = escape(alloc, &Name::from_text(alloc, text)?)?;
    assert!(rt; made.as_str() == field);
    let read = unescape(alloc, &made)?;
    assert!(rt; read.as_str() == text);
    Ok(())
}

#[test]
fn fields_and_texts(rt: HostRuntime) -> Result<(), Fail> {
    let rows = [
        ("", ""),
        ("a b", "a%20b"),
        ("/etc/rc-1.d/_x~", "/etc/rc-1.d/_x~"),
        ("100%,a:b+c\n", "100%25%2Ca%3Ab%2Bc%0A"),
        ("größe", "gr%C3%B6%C3%9Fe"),
    ];
    for (text, field) in rows {
        check(&rt, rt.alloc(), text, field)?;
    }
    Ok(())
}

#[test]
fn other_texts_are_no_fields(rt: HostRuntime) -> Result<(), Fail> {
    let alloc = rt.alloc();
    for text in [
        "a b", "%2F", "%2f", "%c3%b6", "%20%", "%4", "%FF", "ö", "%zz",
    ] {
        let field = Name::from_text(alloc, text)?;
        assert!(rt; matches!(unescape(alloc, &field), Err(FieldErr::BadField)));
    }
    Ok(())
}
