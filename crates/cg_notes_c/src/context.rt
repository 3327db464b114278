//! What stands around a place of a text.

use cg_c_reader::{Cursor, Position, Token, next_token};
use cg_c_syntax::{Kind, Line};

/// The tokens around a place of a text; a text that isn't there is empty.
#[derive(Clone, Copy, Drop)]
pub(crate) struct Around<'a> {
    /// The kind of the token at the place.
    pub kind: Kind,
    /// Its text.
    pub at: &'a str,
    /// The text of the token before it.
    pub last: &'a str,
    /// Where that token ends.
    pub end: usize,
    /// The text of the token before that one.
    pub second: &'a str,
    /// The text of the first token of the statement or the declaration.
    pub first: &'a str,
    /// Whether the place is in the function.
    pub inside: bool,
    /// The number of braces that are open.
    pub braces: usize,
    /// The number of round brackets that are open.
    pub brackets: usize,
    /// In the head of a `for`, the number of semicolons before the place.
    pub head: Option<usize>,
    /// Whether a statement or a declaration begins at the place.
    begins: bool,
}

impl<'a> Around<'a> {
    /// Returns what stands around the beginning of a text.
    fn new() -> Self {
        Around {
            kind: Kind::TextEnd,
            at: "",
            last: "",
            end: 0,
            second: "",
            first: "",
            inside: false,
            braces: 0,
            brackets: 0,
            head: None,
            begins: true,
        }
    }

    /// Passes `token`, which is before the place.
    fn pass(&mut self, token: Token<'a>) {
        let text = text_of(token);
        self.note_first(text);
        match text {
            "for" => self.head = Some(0),
            "(" => self.brackets = self.brackets.saturating_add(1),
            ")" => self.close_bracket(),
            "{" => self.open_brace(),
            "}" => self.close_brace(),
            ";" => self.pass_semicolon(),
            "" => self.begins = true,
            _ => {}
        }
        self.second = self.last;
        self.last = text;
        self.end = token.place.saturating_add(token.text.len());
    }

    /// Notes `text` as the first of its statement, if one begins with it.
    fn note_first(&mut self, text: &'a str) {
        if self.begins {
            self.first = text;
            self.begins = false;
        }
    }

    /// Passes a `)`, with which the head of a `for` may end.
    fn close_bracket(&mut self) {
        self.brackets = self.brackets.saturating_sub(1);
        if self.brackets == 0 && self.head.is_some() {
            self.head = None;
            self.begins = true;
        }
    }

    /// Passes a `{`, which begins the function where it follows a `)`.
    fn open_brace(&mut self) {
        self.inside = self.inside || self.last == ")";
        self.begins = self.inside;
        self.braces = self.braces.saturating_add(1);
    }

    /// Passes a `}`.
    fn close_brace(&mut self) {
        self.begins = self.inside;
        self.braces = self.braces.saturating_sub(1);
    }

    /// Passes a `;`, which ends a statement or a part of the head of a `for`.
    fn pass_semicolon(&mut self) {
        match self.head {
            Some(count) => self.head = Some(count.saturating_add(1)),
            None => self.begins = true,
        }
    }

    /// Returns this with `token` at the place.
    fn stands_at(mut self, token: Token<'a>) -> Self {
        let text = text_of(token);
        if self.begins {
            self.first = text;
        }
        self.kind = token.kind;
        self.at = text;
        self
    }

    /// Checks whether the token at the place is the first of its statement or declaration.
    pub(crate) fn is_first(self) -> bool {
        self.begins
    }

    /// Checks whether the place is after the function.
    pub(crate) fn is_after_function(self) -> bool {
        self.inside && self.braces == 0
    }
}

/// Returns the text of `token`; empty for one that has no ASCII text.
fn text_of(token: Token<'_>) -> &str {
    std::str::from_utf8(token.text).unwrap_or("")
}

/// Returns what stands around the byte of `bytes` at `place`.
pub(crate) fn look_around(bytes: &[u8], place: usize) -> Around<'_> {
    let mut around = Around::new();
    let mut cursor = Cursor {
        place: 0,
        line: Line::Fresh,
    };
    for _ in 0..bytes.len() {
        if cursor.place > bytes.len() {
            break;
        }
        let cut = next_token(bytes, cursor);
        if cut.token.place >= place {
            return around.stands_at(cut.token);
        }
        around.pass(cut.token);
        cursor = cut.next;
    }
    around
}

/// Returns the position in `bytes` of the byte at `position`.
pub(crate) fn offset_of(bytes: &[u8], position: Position) -> usize {
    let mut start = 0usize;
    for (number, line) in bytes.split(|byte| *byte == b'\n').enumerate() {
        if number.saturating_add(1) == position.line {
            break;
        }
        start = start.saturating_add(line.len()).saturating_add(1);
    }
    start.saturating_add(position.column.saturating_sub(1))
}
