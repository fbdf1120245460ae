//! Parts of a query.

/// What a part of a query without labels matches, by the numbers of its tests and tags: a token that passes a test; the begin, the end or the whole of an
/// instance; one part after another; either of two; a part, so many times at least and at most; a gap, that is so many tokens at least and at most, whatever they are.
#[derive(Drop)]
pub enum Part {
    Token(u32),
    Begin(u32),
    End(u32),
    Whole(u32),
    Seq(Box<Part>, Box<Part>),
    Choice(Box<Part>, Box<Part>),
    Repeat(Box<Part>, u32, u32),
    Gap(u32, u32),
}
