use flash_base::NoMemory;
use std::alloc::Global;

/// The part before the first tab, and what follows it.
pub fn first(text: &str) -> (&str, &str) {
    cut(text, '\t')
}

fn cut(text: &str, at: char) -> (&str, &str) {
    match text.split_once(at) {
        Some(parts) => parts,
        None => (text, ""),
    }
}

/// The piece with a name; nothing where there is none.
fn piece<'a>(table: &'a str, name: &str) -> &'a str {
    for line in table.split('\n') {
        let (word, rest) = first(line);
        let (found, body) = first(rest);
        if word == "let" && found == name {
            return body;
        }
    }
    ""
}

fn edited(alloc: Global, table: &str, parts: &str) -> Result<String, NoMemory> {
    let (name, rest) = cut(parts, '|');
    let (old, new) = cut(rest, '|');
    match piece(table, name).split_once(old) {
        Some((before, after)) => Ok(format!(in alloc; "{before}{new}{after}")?),
        None => Ok(String::from_str(alloc, "no such piece")?),
    }
}

fn comma(n: usize) -> &'static str {
    if n == 0 { "" } else { "," }
}

/// A number in decimal digits alone; 0 for each other text.
pub fn number(text: &str) -> u64 {
    u64::from_str_radix(text, 10).unwrap_or(0)
}

fn many(alloc: Global, parts: &str) -> Result<String, NoMemory> {
    let (count, rest) = cut(parts, '|');
    let (name, rest) = cut(rest, '|');
    let mut text = String::new(alloc);
    for n in 0..number(count) as usize {
        let comma = comma(n);
        write!(text, "{comma}<{name} {n}|{n:04X}|{n:03}|{n:x}|{rest}>")?;
    }
    Ok(text)
}

fn letters(alloc: Global, letters: &str) -> Result<String, NoMemory> {
    let mut text = String::new(alloc);
    for (n, letter) in letters.chars().enumerate() {
        let comma = comma(n);
        write!(text, "{comma}<task-{letter} {n}|{n:04X}|{n:03}|{n:x}>")?;
    }
    Ok(text)
}

/// The places of a piece.
const PLACES: [&str; 6] = ["$1", "$2", "$3", "$4", "$5", "$6"];

fn filled(alloc: Global, body: &str, parts: &str) -> Result<String, NoMemory> {
    let mut text = String::from_str(alloc, body)?;
    for (place, part) in PLACES.iter().zip(parts.split('|')) {
        text = text.as_str().replace(alloc, *place, part)?;
    }
    Ok(text)
}

/// What a name with its parts stands for.
fn meant(alloc: Global, table: &str, name: &str, parts: &str) -> Result<String, NoMemory> {
    match name {
        "edit" => edited(alloc, table, parts),
        "many" => many(alloc, parts),
        "letters" => letters(alloc, parts),
        _ => filled(alloc, piece(table, name), parts),
    }
}

/// The text with the last name in it replaced, or None where there is none.
fn replaced(alloc: Global, table: &str, text: &str) -> Result<Option<String>, NoMemory> {
    let Some((before, rest)) = text.rsplit_once('<') else {
        return Ok(None);
    };
    let (call, after) = cut(rest, '>');
    let (name, parts) = cut(call, ' ');
    let meant = meant(alloc, table, name, parts)?;
    let meant = meant.as_str();
    Ok(Some(format!(in alloc; "{before}{meant}{after}")?))
}

/// A row with all its names replaced, and line ends for `¶`.
pub(crate) fn expanded(alloc: Global, table: &str, row: &str) -> Result<String, NoMemory> {
    let mut text = String::from_str(alloc, row)?;
    for _ in 0..10_000u32 {
        match replaced(alloc, table, text.as_str())? {
            Some(next) => text = next,
            None => break,
        }
    }
    Ok(text.as_str().replace(alloc, '¶', "\n")?)
}
