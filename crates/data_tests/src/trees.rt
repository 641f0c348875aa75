use flash_base::Items;
use odx_tree::{Element, TreeFault, read};
use std::process::Abort;
use std::test::Fail;

/// The path of a refusal, or None.
fn refused_at(outcome: Result<Element, TreeFault>) -> Option<Items<u64>> {
    match outcome {
        Err(TreeFault::NotTree { path }) => Some(path),
        _ => None,
    }
}

fn assert_refused(rt: &impl Abort, outcome: Result<Element, TreeFault>, want: &[u64], text: &str) {
    match refused_at(outcome) {
        Some(path) => assert_eq!(rt; path.as_slice(), want, "{text}"),
        None => assert!(rt; false, "{text}"),
    }
}

/// The text of a value that is nested so deep in arrays.
fn nested(rt: &HostRuntime, depth: usize) -> Result<String, Fail> {
    let mut text = String::from_str(rt.alloc(), "{\"tag\":\"A\",\"more\":")?;
    for _ in 0..depth {
        text.push('[')?;
    }
    for _ in 0..depth {
        text.push(']')?;
    }
    text.push('}')?;
    Ok(text)
}

#[test]
fn tree_with_all_parts(rt: HostRuntime) -> Result<(), Fail> {
    let text = br#" {"text":"caf\u00e9","kids":[{"tag":"B"},{"tag":"C","text":" x "}],
        "attrs":{"TYPE":"A_BYTEFIELD","ID":"S1"},"tag":"A","note":[null,1.5]} "#;
    let root = read(rt.alloc(), text)?;
    assert!(rt; root.tag.is("A"));
    assert!(rt; root.text.is("café"));
    assert_eq!(rt; root.attrs.len(), 2);
    let (name, value) = root.attrs.at(0);
    assert!(rt; name.is("ID") && value.is("S1"));
    let (name, value) = root.attrs.at(1);
    assert!(rt; name.is("TYPE") && value.is("A_BYTEFIELD"));
    assert_eq!(rt; root.kids.len(), 2);
    assert!(rt; root.kids.at(0).tag.is("B") && root.kids.at(0).text.is(""));
    assert!(rt; root.kids.at(1).tag.is("C") && root.kids.at(1).text.is(" x "));
    assert_eq!(rt; root.kids.at(1).kids.len(), 0);
    Ok(())
}

#[test]
fn places_of_refusals(rt: HostRuntime) -> Result<(), Fail> {
    let alloc = rt.alloc();
    for (text, want) in [
        ("{\"kids\":[]}", [].as_slice()),
        ("[]", [].as_slice()),
        ("null", [].as_slice()),
        ("{\"tag\":\"\"}", [].as_slice()),
        ("{\"tag\":7}", [].as_slice()),
        ("{\"tag\":\"A\",\"text\":null}", [].as_slice()),
        ("{\"tag\":\"A\",\"attrs\":{\"ID\":1}}", [].as_slice()),
        ("{\"tag\":\"A\",\"attrs\":[]}", [].as_slice()),
        ("{\"tag\":\"A\",\"kids\":{}}", [].as_slice()),
        (
            "{\"tag\":\"A\",\"kids\":[{\"tag\":\"B\"},{}]}",
            [1].as_slice(),
        ),
        ("{\"tag\":\"A\",\"kids\":[{},{}]}", [0].as_slice()),
        ("{\"kids\":[{}],\"tag\":\"A\",\"text\":1}", [].as_slice()),
        (
            "{\"tag\":\"A\",\"kids\":[{\"tag\":\"B\",\"kids\":[{\"tag\":\"C\"},5]},7]}",
            [0, 1].as_slice(),
        ),
        (
            "{\"tag\":\"A\",\"kids\":[{\"text\":1,\"kids\":[5]},7]}",
            [0].as_slice(),
        ),
    ] {
        assert_refused(&rt, read(alloc, text.as_bytes()), want, text);
    }
    Ok(())
}

#[test]
fn duplicate_members(rt: HostRuntime) -> Result<(), Fail> {
    let root = read(
        rt.alloc(),
        b"{\"tag\":1,\"tag\":\"A\",\"kids\":7,\"kids\":[]}",
    )?;
    assert!(rt; root.tag.is("A"));
    Ok(())
}

#[test]
fn no_json(rt: HostRuntime) -> Result<(), Fail> {
    let alloc = rt.alloc();
    let within = nested(&rt, 126)?;
    let beyond = nested(&rt, 127)?;
    assert!(rt; matches!(read(alloc, within.as_bytes()), Ok(_)));
    for bytes in [
        b"{".as_slice(),
        b"".as_slice(),
        b"{\"tag\":\"\xff\"}".as_slice(),
        b"{\"tag\":\"A\"} x".as_slice(),
        beyond.as_bytes(),
    ] {
        assert!(rt; matches!(read(alloc, bytes), Err(TreeFault::NotJson)));
    }
    Ok(())
}

#[test]
fn size_limit(rt: HostRuntime) -> Result<(), Fail> {
    let alloc = rt.alloc();
    let mut text = vec![in alloc; b' '; 67_108_864]?;
    assert!(rt; matches!(read(alloc, text.as_slice()), Err(TreeFault::NotJson)));
    text.push(b' ')?;
    assert!(rt; matches!(read(alloc, text.as_slice()), Err(TreeFault::TooLarge)));
    Ok(())
}
