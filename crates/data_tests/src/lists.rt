use flash_base::{Bytes, Files, Items, Names, NoMemory, Text};
use std::test::Fail;

#[test]
fn lists_grow_at_the_end(rt: HostRuntime) -> Result<(), NoMemory> {
    let mut bytes = Bytes::from_slice(rt.alloc(), b"ab")?;
    bytes.push(99)?;
    bytes.extend(b"de")?;
    assert_eq!(rt; bytes.as_slice(), b"abcde".as_slice());
    let mut numbers = Items::new(rt.alloc());
    numbers.push(7u16)?;
    numbers.push(9)?;
    assert_eq!(rt; numbers.as_slice(), [7, 9].as_slice());
    let mut names = Names::new(rt.alloc());
    names.push(Text::from_str(rt.alloc(), "u.hex")?)?;
    assert_eq!(rt; names.len(), 1);
    assert_eq!(rt; names.at(0).as_str(), "u.hex");
    Ok(())
}

#[test]
fn the_first_file_of_a_name_counts(rt: HostRuntime) -> Result<(), Fail> {
    let mut files = Files::new(rt.alloc());
    files.push((
        Text::from_str(rt.alloc(), "a")?,
        Bytes::from_slice(rt.alloc(), b"1")?,
    ))?;
    files.push((
        Text::from_str(rt.alloc(), "b")?,
        Bytes::from_slice(rt.alloc(), b"2")?,
    ))?;
    files.push((
        Text::from_str(rt.alloc(), "a")?,
        Bytes::from_slice(rt.alloc(), b"3")?,
    ))?;
    assert_eq!(rt; files.find("a").ok_or("a")?.as_slice(), b"1".as_slice());
    assert_eq!(rt; files.find("b").ok_or("b")?.as_slice(), b"2".as_slice());
    assert!(rt; files.find("c").is_none());
    Ok(())
}
