// The clashes of scripts of edits, and that none without a clash fails to settle.
ghost use Rattle.std.specs.Prelude.{◌≡◌, ◌≤◌, ℕ, length, IfOk};
ghost use Rattle.cfa_edits.specs.Scripts.{IsEdit, IsOneLine, rank};

use cfa_base::{How, Name, Names, Parts, Pattern};
use cfa_edit_proof::quiet;
use cfa_edits::{Edit, EditErr, Script, Spot};
use std::alloc::Global;
use std::process::Abort;
use std::test::Fail;

// A text without newlines.
fn line(rt: &impl Abort, alloc: Global, text: &str) -> Result<Name, Fail>
    ensures { IfOk result IsOneLine }
{
    for byte in text.as_bytes() {
        assert!(rt; *byte != b'\n');
    }
    Ok(Name::from_text(alloc, text)?)
}

fn pattern(alloc: Global, text: &str, how: How) -> Result<Pattern, Fail>
    ensures { IfOk result (λ pattern. pattern.how ≡ how) }
{
    let text = Name::from_text(alloc, text)?;
    Ok(Pattern::new(alloc, &text, how)?)
}

fn delete(alloc: Global, text: &str) -> Result<Edit, Fail>
    ensures { IfOk result IsEdit }
{
    Ok(Edit::Delete(pattern(alloc, text, How::Whole)?))
}

// The second field between colons gets the value.
fn field(rt: &impl Abort, alloc: Global, text: &str, value: &str) -> Result<Edit, Fail>
    ensures { IfOk result IsEdit }
{
    let value = line(rt, alloc, value)?;
    Ok(Edit::Field(pattern(alloc, text, How::Whole)?, ':', 2, value))
}

// The line goes before the first one that the pattern matches.
fn insert(rt: &impl Abort, alloc: Global, text: &str, value: &str) -> Result<Edit, Fail>
    ensures { IfOk result IsEdit }
{
    let mut block = Names::new(alloc);
    block.push(line(rt, alloc, value)?)?;
    Ok(Edit::Insert(block, Spot::Before(pattern(alloc, text, How::Whole)?, true)))
}

fn replace(rt: &impl Abort, alloc: Global, text: &str, value: &str, all: bool) -> Result<Edit, Fail>
    ensures { IfOk result IsEdit }
{
    let value = line(rt, alloc, value)?;
    Ok(Edit::Replace(pattern(alloc, text, How::Part)?, value, all))
}

// The edit of a row: its kind, its pattern, and its value or line.
fn edit(rt: &impl Abort, alloc: Global, row: &(char, &str, &str)) -> Result<Edit, Fail>
    ensures { IfOk result IsEdit }
{
    let (kind, text, value) = row;
    match *kind {
        'd' => delete(alloc, text),
        'f' => field(rt, alloc, text, value),
        'i' => insert(rt, alloc, text, value),
        _ => replace(rt, alloc, text, value, *kind == 'r'),
    }
}

fn rank(edit: &Edit) -> u8
    ensures { result ≡ rank edit.now }
{
    match edit {
        Edit::Delete(_) => 0,
        Edit::Field(_, _, _, _) => 1,
        Edit::Insert(_, _) => 2,
        Edit::Replace(_, _, _) => 3,
    }
}

fn in_order(alloc: Global, first: Edit, second: Edit) -> Result<Script, Fail>
    requires first { IsEdit first }
    requires second { IsEdit second }
    requires order { rank first ≤ rank second }
    ensures { IfOk result (λ script. length script ≡ 2) }
{
    let mut edits = Vec::new(alloc);
    edits.push(first)?;
    edits.push(second)?;
    Ok(Script::new(alloc, Parts::from_vec(edits))?)
}

// The script of two edits, in the order of their kinds.
fn script(alloc: Global, first: Edit, second: Edit) -> Result<Script, Fail>
    requires first { IsEdit first }
    requires second { IsEdit second }
    ensures { IfOk result (λ script. length script ≡ 2) }
{
    if rank(&second) < rank(&first) {
        in_order(alloc, second, first)
    } else {
        in_order(alloc, first, second)
    }
}

// The script of two rows.
fn script_of(
    rt: &impl Abort,
    alloc: Global,
    first: &(char, &str, &str),
    second: &(char, &str, &str),
) -> Result<Script, Fail>
    ensures { IfOk result (λ script. length script ≡ 2) }
{
    let first = edit(rt, alloc, first)?;
    let second = edit(rt, alloc, second)?;
    script(alloc, first, second)
}

// The numbers of the first clash; noughts where there is none.
fn clash(alloc: Global, script: &Script) -> Result<(u32, u32, u8), Fail>
    requires { length script.now ≡ 2 }
{
    match quiet(alloc, script)? {
        Some(clash) => Ok((clash.first, clash.second, clash.rule)),
        None => Ok((0, 0, 0)),
    }
}

#[test]
fn first_clashes(rt: HostRuntime) -> Result<(), Fail> {
    let rows = [
        (('r', "a", "aa"), ('r', "b", "c"), (1, 1, 1)),
        (('r', "a", "b"), ('r', "c", "cc"), (2, 2, 1)),
        (('1', "a", "b"), ('d', "x", ""), (1, 2, 4)),
        (('i', "x", "y"), ('1', "a", "b"), (2, 2, 1)),
        (('i', "x", "y"), ('r', "a.c", "b"), (2, 2, 1)),
        (('i', "x", "a.c"), ('r', "a.c", "b"), (1, 2, 3)),
        (('i', "x", "y"), ('r', "a", ""), (2, 2, 1)),
        (('f', "a:.*", "x:y"), ('i', "x", "y"), (1, 1, 1)),
        (('d', "Port.*", ""), ('i', "x", "Port 22"), (1, 2, 2)),
        (('d', "Port", ""), ('i', "x", "Port 22"), (0, 0, 0)),
        (('i', "x", "banana"), ('r', "nan", "b"), (1, 2, 3)),
        (('i', "x", "banana"), ('r', "nab", "c"), (0, 0, 0)),
        (('d', "a", ""), ('f', "b:.*", "c"), (1, 2, 4)),
        (('d', "a", ""), ('d', "a", ""), (0, 0, 0)),
        (('f', "a:.*", "b"), ('f', "a:.*", "b"), (1, 2, 4)),
        (('f', "a:.*", "b"), ('r', "c", "d"), (1, 2, 4)),
        (('r', "a", "b"), ('r', "c", "a"), (1, 2, 5)),
        (('r', "c", "a"), ('r', "a", "b"), (0, 0, 0)),
        (('r', "a", "é"), ('r', "b", "è"), (0, 0, 0)),
        (('f', "root:.*", "*"), ('i', "x", "root:x:0"), (1, 2, 6)),
        (('f', "root:.*", "*"), ('i', "x", "root:*:0"), (0, 0, 0)),
        (('f', "root.*", "*"), ('i', "x", "root"), (1, 2, 6)),
        (('f', "root:.*", "*"), ('i', "x", "bin:x:0"), (0, 0, 0)),
    ];
    for (first, second, expected) in rows {
        let script = script_of(&rt, rt.alloc(), &first, &second)?;
        assert_eq!(rt; clash(rt.alloc(), &script)?, expected);
    }
    Ok(())
}

// What the script leaves of the lines it leaves again, unless it is refused.
fn settles(rt: &impl Abort, alloc: Global, script: &Script, lines: &Names) -> Result<(), Fail> {
    match script.apply(alloc, lines) {
        Ok(left) => {
            assert!(rt; script.settled(alloc, &left)?);
            Ok(())
        }
        Err(EditErr::NoMemory) => {
            assert!(rt; false);
            Ok(())
        }
        Err(_) => Ok(()),
    }
}

// Those of the lines whose bits are set.
fn some_lines(alloc: Global, chosen: usize) -> Result<Names, Fail> {
    let mut lines = Names::new(alloc);
    let mut left = chosen;
    for line in ["a", "ab", "a:b:c", "b:a", "", "x y é"] {
        if left % 2 == 1 {
            lines.push(Name::from_text(alloc, line)?)?;
        }
        left /= 2;
    }
    Ok(lines)
}

fn settles_everywhere(rt: &impl Abort, alloc: Global, script: &Script) -> Result<(), Fail> {
    for chosen in 0..64usize {
        settles(rt, alloc, script, &some_lines(alloc, chosen)?)?;
    }
    Ok(())
}

#[test]
fn quiet_scripts_settle(rt: HostRuntime) -> Result<(), Fail> {
    let edits = [
        ('d', "a.*", ""),
        ('d', "", ""),
        ('f', "a.*", "b"),
        ('f', ".*:.*", "é"),
        ('f', "x.*", ""),
        ('i', "a", "ab"),
        ('i', ".*", "a:b:c"),
        ('i', "", "x:y"),
        ('i', "x.*", "b"),
        ('r', "a", "b"),
        ('r', "b", "é"),
        ('r', "ab", "c c"),
        ('r', "aa", "c"),
        ('r', "x y", "b"),
        ('r', ":", "a"),
        ('1', "a", "c"),
    ];
    let mut count = 0u32;
    for first in &edits {
        for second in &edits {
            let script = script_of(&rt, rt.alloc(), first, second)?;
            if clash(rt.alloc(), &script)? == (0, 0, 0) {
                count = count.saturating_add(1);
                settles_everywhere(&rt, rt.alloc(), &script)?;
            }
        }
    }
    assert!(rt; count > 50);
    Ok(())
}
