//! Instances by the numbers of their names and words.

/// An instance by numbers: that of its name, and those of its words, one or two.
#[derive(Clone, Copy, Debug, PartialEq, Eq, PartialOrd, Ord, Drop)]
pub struct Note {
    pub name: u32,
    pub first: u32,
    pub second: Option<u32>,
}
