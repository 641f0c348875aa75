ghost use Rattle.std.specs.Prelude.{◌≡◌, ◌<◌, length, MatchOption};
ghost use Rattle.text_forms.specs.Trim.{without_front, without_end, cut};

/// The rest of a text after its first character, where that is a blank, a tab or a line end.
fn after_blank(text: &str) -> Option<&str>
    ensures value { MatchOption result (without_front text.now ≡ text.now)
        (λ rest. without_front text.now ≡ without_front rest.now) }
    ensures shorter { MatchOption result (text.now ≡ text.now) (λ rest. length rest.now < length text.now) }
{
    if let Some(rest) = text.strip_prefix(' ') {
        return Some(rest);
    }
    if let Some(rest) = text.strip_prefix('\t') {
        return Some(rest);
    }
    if let Some(rest) = text.strip_prefix('\n') {
        return Some(rest);
    }
    text.strip_prefix('\r')
}

/// The rest of a text before its last character, where that is a blank, a tab or a line end.
fn before_blank(text: &str) -> Option<&str>
    ensures value { MatchOption result (without_end text.now ≡ text.now)
        (λ rest. without_end text.now ≡ without_end rest.now) }
    ensures shorter { MatchOption result (text.now ≡ text.now) (λ rest. length rest.now < length text.now) }
{
    if let Some(rest) = text.strip_suffix(' ') {
        return Some(rest);
    }
    if let Some(rest) = text.strip_suffix('\t') {
        return Some(rest);
    }
    if let Some(rest) = text.strip_suffix('\n') {
        return Some(rest);
    }
    text.strip_suffix('\r')
}

fn front_trimmed(text: &str) -> &str
    ensures { result.now ≡ without_front text.now }
{
    let mut kept = text;
    while let Some(rest) = after_blank(kept) {
        kept = rest;
    }
    kept
}

fn end_trimmed(text: &str) -> &str
    ensures { result.now ≡ without_end text.now }
{
    let mut kept = text;
    while let Some(rest) = before_blank(kept) {
        kept = rest;
    }
    kept
}

/// The text without the blanks, tabs and line ends (LF, CR) at both of its ends.
pub fn trimmed(text: &str) -> &str
    ensures { result.now ≡ cut text.now }
{
    end_trimmed(front_trimmed(text))
}
