//! The words of a text.

ghost use Rattle.std.specs.Prelude.{◌≡◌, ◌<◌, length, slice_get, slice_index, Some};

use mt_lexicon::Lexicon;
use std::alloc::Global;

/// What is told of a text: the values of a lexicon, and the number of the value at each place.
#[derive(Clone, Copy, Drop)]
pub(crate) struct Words<'a> {
    pub(crate) alloc: Global,
    pub(crate) lexicon: &'a Lexicon,
    pub(crate) numbers: &'a [u32],
}

impl<'a> Words<'a> {
    /// The number of the value at a place.
    pub(crate) fn number(&self, place: u32) -> u32
        requires { place < length self.now.numbers.now }
        ensures { result ≡ slice_index self.now.numbers.now place }
    {
        self.numbers[place as usize]
    }

    /// The value with this number.
    pub(crate) fn value(&self, number: u32) -> &str
        requires { number < length self.now.lexicon.now }
        ensures { slice_get self.now.lexicon.now number ≡ Some result.now }
    {
        self.lexicon.value(number)
    }
}
