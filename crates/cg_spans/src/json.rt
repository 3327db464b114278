//! Places in JSON texts.
ghost use Rattle.std.specs.Prelude.{◌<◌, ◌≤◌, IfSome, length};

/// A step from a JSON value into one of its parts.
#[derive(Clone, Copy)]
pub enum Step<'a> {
    /// To the value of an object's key; if several keys have that name, to the value of the last one, as parsers do.
    Key(&'a str),
    /// To an item of an array, counted from 0.
    Item(usize),
}

/// Where a byte lies: between strings or in one.
#[derive(Clone, Copy, PartialEq, Eq)]
enum Quoting {
    Bare,
    /// In a string.
    Text,
    /// In a string, after a backslash.
    Escaped,
}

impl Quoting {
    /// Returns where the byte after `byte` lies.
    fn after(self, byte: u8) -> Quoting {
        match (self, byte) {
            (Quoting::Bare, b'"') | (Quoting::Escaped, _) => Quoting::Text,
            (Quoting::Text, b'\\') => Quoting::Escaped,
            (Quoting::Text, b'"') => Quoting::Bare,
            _ => self,
        }
    }
}

/// Returns the byte at which the value begins that `path` leads to in `text`, a JSON text. Returns None if it leads
/// nowhere. A key that `text` writes with a backslash matches no step.
pub fn json_value_at(text: &[u8], path: &[Step<'_>]) -> Option<usize> {
    let mut at = value_from(text, 0)?;
    for step in path {
        at = match *step {
            Step::Key(key) => keyed_value(text, after_mark(text, at, b'{')?, key.as_bytes())?,
            Step::Item(number) => numbered_item(text, after_mark(text, at, b'[')?, number)?,
        };
    }
    Some(at)
}

/// Returns the byte of the opening quote of key `number`, counted from 0, of the object that `path` leads to in `text`,
/// a JSON text. Returns None if there are fewer keys, or no object.
pub fn json_key_at(text: &[u8], path: &[Step<'_>], number: usize) -> Option<usize> {
    let object = json_value_at(text, path)?;
    let mut member = after_mark(text, object, b'{')?;
    for _ in 0..number {
        member = next_part(text, member)?;
    }
    let place = after_blanks(text, member);
    if text.get(place) == Some(&b'"') {
        Some(place)
    } else {
        None
    }
}

/// Returns the byte at which the last value with the key `key` begins, in the object of `text` whose members begin at
/// `first`.
fn keyed_value(text: &[u8], first: usize, key: &[u8]) -> Option<usize> {
    let mut member = first;
    let mut value = None;
    loop {
        value = value_if_key(text, member, key).or(value);
        let Some(next) = next_part(text, member) else {
            return value;
        };
        member = next;
    }
}

/// Returns the byte at which the value begins of the object member at `member` in `text`, if its key is `key`.
fn value_if_key(text: &[u8], member: usize, key: &[u8]) -> Option<usize> {
    let name = after_mark(text, member, b'"')?;
    let quote = closing_quote(text, name)?;
    if !is_written_plainly(text.get(name..quote)?, key) {
        return None;
    }
    let colon = after_mark(text, quote, b'"')?;
    value_from(text, after_mark(text, colon, b':')?)
}

/// Returns whether `name`, as written between quotes in a text, is `key` without any escaped byte.
fn is_written_plainly(name: &[u8], key: &[u8]) -> bool {
    name == key && !name.contains(&b'\\')
}

/// Returns the byte at which item `number` begins, in the array of `text` whose items begin at `first`.
fn numbered_item(text: &[u8], first: usize, number: usize) -> Option<usize> {
    let mut item = first;
    for _ in 0..number {
        item = next_part(text, item)?;
    }
    value_from(text, item)
}

/// Returns the place after the comma that ends the part of an array or object at `part` in `text`. Returns None if a
/// bracket or the end of `text` ends it, since no part follows.
fn next_part(text: &[u8], part: usize) -> Option<usize>
    ensures { IfSome result (λ next. (part < next) × (next ≤ length text.now)) }
{
    let mut depth = 0usize;
    let mut quoting = Quoting::Bare;
    for place in part..text.len() {
        let byte = text[place];
        if quoting == Quoting::Bare {
            match byte {
                b',' if depth == 0 => return Some(place + 1),
                b'[' | b'{' => depth = depth.saturating_add(1),
                b']' | b'}' => depth = depth.checked_sub(1)?,
                _ => {}
            }
        }
        quoting = quoting.after(byte);
    }
    None
}

/// Returns the place of the quote that closes the string of `text` whose bytes begin at `first`.
fn closing_quote(text: &[u8], first: usize) -> Option<usize> {
    let mut quoting = Quoting::Text;
    for place in first..text.len() {
        quoting = quoting.after(text[place]);
        if quoting == Quoting::Bare {
            return Some(place);
        }
    }
    None
}

/// Returns the place of the first byte of the value that begins in `text` at `at` or after blanks from there. Returns
/// None if no value begins there, as in an empty array.
fn value_from(text: &[u8], at: usize) -> Option<usize> {
    let place = after_blanks(text, at);
    match text.get(place)? {
        b',' | b':' | b']' | b'}' => None,
        _ => Some(place),
    }
}

/// Returns the place after the byte `mark`, if that byte is in `text` at `at` or after blanks from there.
fn after_mark(text: &[u8], at: usize, mark: u8) -> Option<usize> {
    let place = after_blanks(text, at);
    if *text.get(place)? == mark {
        Some(place + 1)
    } else {
        None
    }
}

/// Returns the place of the first byte of `text` from `at` on that isn't a blank, or the length of `text`.
fn after_blanks(text: &[u8], at: usize) -> usize {
    for place in at..text.len() {
        if !matches!(text[place], b' ' | b'\t' | b'\n' | b'\r') {
            return place;
        }
    }
    text.len()
}
