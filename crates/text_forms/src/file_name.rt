ghost use Rattle.std.specs.Prelude.{◌≡◌};
ghost use Rattle.std.specs.List.{list_all};
ghost use Rattle.text_forms.specs.FileNames.{may_begin, may_follow, begins, file_name};

/// Whether a byte may begin a name: a letter, a digit or `_` of ASCII.
pub fn begins_name(c: u8) -> bool
    ensures { result ≡ may_begin c }
{
    c.is_ascii_alphanumeric() || c == b'_'
}

fn follows_in_name(c: u8) -> bool
    ensures { result ≡ may_follow c }
{
    begins_name(c) || c == b'.' || c == b'-'
}

fn begins_well(bytes: &[u8]) -> bool
    ensures { result ≡ begins bytes.now }
{
    match bytes {
        [first, ..] => begins_name(*first),
        [] => false,
    }
}

fn all_follow(bytes: &[u8]) -> bool
    ensures { result ≡ list_all may_follow bytes.now }
{
    bytes.iter().all(|c| follows_in_name(*c))
}

/// Whether a text is a file name: 1 to 128 letters, digits, `.`, `_` and `-` of ASCII, of which
/// the first is a letter, a digit or `_`. So it names a file of one folder, and no path.
pub fn is_file_name(text: &str) -> bool
    ensures { result ≡ file_name text.now }
{
    let bytes = text.as_bytes();
    if !begins_well(bytes) {
        return false;
    }
    if bytes.len() > 128 {
        return false;
    }
    all_follow(bytes)
}
