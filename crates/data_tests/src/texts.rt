use std::test::Fail;
use text_forms::{decimal_number, hex_byte, hex_bytes, hex_number, is_file_name, trimmed};

#[test]
fn numbers(rt: HostRuntime) {
    for (text, want) in [
        ("0", Some(0)),
        ("7fFf", Some(32767)),
        ("FFFFFFFFFFFFFFFF", Some(18_446_744_073_709_551_615)),
        ("00000000000000010", None),
        ("", None),
        ("+1", None),
        ("10G0", None),
        (" 1", None),
    ] {
        assert_eq!(rt; hex_number(text), want, "{text}");
    }
    for (text, want) in [
        ("0", Some(0)),
        ("000000000000000000000042", Some(42)),
        ("18446744073709551615", Some(18_446_744_073_709_551_615)),
        ("18446744073709551616", None),
        ("99999999999999999999999", None),
        ("", None),
        ("-1", None),
        ("1f", None),
    ] {
        assert_eq!(rt; decimal_number(text), want, "{text}");
    }
}

#[test]
fn bytes(rt: HostRuntime) -> Result<(), Fail> {
    for (text, want) in [
        ("fF", Some(255)),
        ("0a", Some(10)),
        ("a", None),
        ("0a0", None),
        ("g0", None),
        ("", None),
    ] {
        assert_eq!(rt; hex_byte(text), want, "{text}");
    }
    let alloc = rt.alloc();
    match hex_bytes(alloc, "4F4b00")? {
        Some(bytes) => assert_eq!(rt; bytes.as_slice(), b"OK\0".as_slice()),
        None => assert!(rt; false),
    }
    assert!(rt; matches!(hex_bytes(alloc, "4F4")?, None));
    assert!(rt; matches!(hex_bytes(alloc, "4F 4")?, None));
    Ok(())
}

#[test]
fn names_and_blanks(rt: HostRuntime) {
    for (text, want) in [
        ("a.hex", true),
        ("_1-2.S19", true),
        ("", false),
        (".hidden", false),
        ("-x", false),
        ("a/b", false),
        ("..", false),
        ("caf\u{e9}", false),
    ] {
        assert_eq!(rt; is_file_name(text), want, "{text}");
    }
    for (text, want) in [
        ("", ""),
        (" \t\r\n", ""),
        ("  a b \r\n", "a b"),
        ("\u{c}x\u{c}", "\u{c}x\u{c}"),
        ("\u{a0}\u{e9} ", "\u{a0}\u{e9}"),
    ] {
        assert_eq!(rt; trimmed(text), want, "{text}");
    }
}
