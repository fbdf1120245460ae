//! The tokens of a query's text.

/// A sign, but for `{`.
#[derive(Clone, Copy, Drop)]
pub enum Sign {
    /// `!==`
    Differs,
    /// `==`
    Same,
    /// `!=`
    IsNot,
    /// `</`
    ClosingTag,
    /// `/>`
    WholeEnd,
    /// `=`
    Is,
    /// `!`
    Bang,
    /// `<`
    TagBegin,
    /// `>`
    TagEnd,
    /// `[`
    OpenSquare,
    /// `]`
    CloseSquare,
    /// `(`
    OpenRound,
    /// `)`
    CloseRound,
    /// `}`
    CloseCurly,
    /// `,`
    Comma,
    /// `:`
    Colon,
    /// `.`
    Dot,
    /// `|`
    Bar,
    /// `&`
    And,
    /// `*`
    Star,
    /// `+`
    Plus,
    /// `?`
    Question,
}

/// A token. What a refusal may name later knows its place.
#[derive(Clone, Copy, Drop)]
pub enum Token<'a> {
    /// A string, by what stands between its quotes.
    Quoted(&'a str),
    Number { at: u32, value: u32 },
    Word { at: u32, name: &'a str },
    OpenCurly { at: u32 },
    Mark(Sign),
}

/// Why no token begins at a place.
#[derive(Clone, Copy, Drop)]
pub enum Unlexed {
    /// No token begins so.
    NoToken,
    /// A string begins that has no end.
    NoEnd,
}
