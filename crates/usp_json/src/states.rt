//! What a reader of JSON is in the middle of, from one byte to the next.

/// Which part of a number its last byte belongs to.
#[derive(Clone, Copy, Debug, PartialEq, Eq)]
pub enum NumberPart {
    Minus,
    Zero,
    Whole,
    Point,
    Fraction,
    Mark,
    Sign,
    Exponent,
}

/// What comes next in a text. `high` is the high surrogate in front, or 0.
#[derive(Clone, Copy, Debug, PartialEq, Eq)]
pub enum Piece {
    /// A character, or the closing quote.
    Start,
    /// The last byte of a character.
    Last,
    /// The second byte of a character of three, or the third of four, between these.
    LastButOne { least: u8, most: u8 },
    /// The second byte of a character of four, between these.
    LastButTwo { least: u8, most: u8 },
    /// The letter of an escape.
    Letter,
    /// The digits of a `\u`, with the value of those before.
    First { high: u32 },
    Second { high: u32, value: u32 },
    Third { high: u32, value: u32 },
    Fourth { high: u32, value: u32 },
    /// The backslash and the `u` behind a high surrogate.
    Backslash { high: u32 },
    U { high: u32 },
}

/// `null`, `true` or `false`.
#[derive(Clone, Copy, Debug, PartialEq, Eq)]
pub enum Word {
    Null,
    True,
    False,
}

/// Whether a text is a name or a value.
#[derive(Clone, Copy, Debug, PartialEq, Eq)]
pub enum Role {
    Name,
    Value,
}

/// What comes next.
#[derive(Clone, Copy, Debug, PartialEq, Eq)]
pub enum Expect {
    /// The outermost object.
    Object,
    Value,
    ValueOrEnd,
    Name,
    NameOrEnd,
    Colon,
    CommaOrEnd,
    /// White space behind the outermost object.
    End,
    Text { role: Role, piece: Piece },
    Number { part: NumberPart },
    Letters { word: Word, place: usize },
}
