ghost use Rattle.std.specs.Prelude.{◌≡◌, ◌≤◌, ◌^◌, length};

/// A line and a column of a file, each from 1. The column counts bytes.
#[derive(Clone, Copy, Debug, PartialEq, Eq)]
pub struct Position {
    pub line: u64,
    pub column: u64,
}

impl Position {
    ghost use Rattle.cfront.specs.Position.{position_of};

    /// Where a byte place of a text is for one who reads it.
    pub fn at(text: &[u8], place: u32) -> Position
        requires { length text.now ≤ 2 ^ 32 }
        ensures { result ≡ position_of text.now place }
    {
        let place = text.len().min(place as usize);
        let mut line = 1u64;
        let mut column = 1u64;
        for byte in &text[..place] {
            if *byte == b'\n' {
                line += 1;
                column = 1;
            } else {
                column += 1;
            }
        }
        Position { line, column }
    }
}
