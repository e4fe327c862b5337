// Lists, and calls on values and lines that no command makes.
use crate::samples::pair;
use hal_base::{CopyIn, Items, Memory, Text, Value, compare, write_line};
use std::alloc::Global;
use std::test::Fail;

/// The text `a`.
fn letter(alloc: Global) -> Result<Text, Memory> {
    let mut text = Text::new(alloc);
    text.push(b'a')?;
    Ok(text)
}

/// A list of one list with that text.
fn lists(alloc: Global) -> Result<Items<Items<Text>>, Memory> {
    let mut group = Items::new(alloc);
    group.push(letter(alloc)?)?;
    let mut groups = Items::with_capacity(alloc, 1)?;
    groups.push(group)?;
    Ok(groups)
}

#[test]
fn lists_keep_their_items(rt: HostRuntime) -> Result<(), Fail> {
    let text = letter(rt.alloc())?;
    assert!(rt; text.len() == 1 && text.get(0) == Some(&b'a') && text.as_str() == "a");
    assert!(rt; text.copy(rt.alloc())?.compare(&text).is_eq());
    let groups = lists(rt.alloc())?;
    assert!(rt; groups.copy(rt.alloc())?.len() == 1 && groups.get(1).is_none());
    Ok(())
}

#[test]
fn numbers_come_before_texts(rt: HostRuntime) -> Result<(), Fail> {
    let text = Value::Text(Text::new(rt.alloc()));
    assert!(rt; compare(&Value::Int(i64::MAX), &text).is_lt());
    let row = pair(rt.alloc(), -1, 5)?;
    assert!(rt; write_line(rt.alloc(), &row)?.as_slice() == b"-1\t5\n".as_slice());
    Ok(())
}
