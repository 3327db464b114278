//! Lines and columns.
ghost use Rattle.std.specs.Prelude.{◌≡◌};
ghost use Rattle.cg_c_syntax.specs.Places as spec;

/// A place of a text: its line and its column, both from 1.
#[derive(Clone, Copy, Debug, PartialEq, Eq, Drop)]
pub struct Position {
    pub line: usize,
    pub column: usize,
}

/// Returns the line and the column of the byte of `bytes` at `place`; of the end of `bytes`, where `place` is behind it.
pub fn position_of(bytes: &[u8], place: usize) -> Position
    ensures line { result.line ≡ spec.line_of bytes.now place }
    ensures column { result.column ≡ spec.column_of bytes.now place }
{
    let mut line = 1;
    let mut column = 1;
    for byte in &bytes[..place.min(bytes.len())] {
        if *byte == b'\n' {
            line += 1;
            column = 1;
        } else {
            column += 1;
        }
    }
    Position { line, column }
}
