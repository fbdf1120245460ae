//! Why bytes are not read as codes.

/// Why no number is read at a bit. The place is that of the code's first bit, counted from 0.
#[derive(Clone, Copy, Debug, PartialEq, Eq, Drop)]
pub enum CodeError {
    /// The bits end inside the code.
    Cut(u64),
    /// The code begins with six zeros, or its gamma number passes 32: it is that of no number below 2^32.
    TooLarge(u64),
}

/// Why bytes are not read as a posting list. The place is that of a bit, counted from 0.
#[derive(Clone, Copy, Debug, PartialEq, Eq, Drop)]
pub enum DecodeError {
    /// The bits end inside the code that begins here.
    Cut(u64),
    /// The code that begins here is that of no number below 2^32, or the position that it gives passes 2^32 − 2.
    TooLarge(u64),
    /// The codes end here, and what follows is not fewer than eight zeros.
    Padding(u64),
    /// There was no memory for the positions.
    NoMemory,
}
