//! Laws of what the tables of segments are decoded to: each function's contract is a law, and the functions do nothing.
#![tactic(auto)]

ghost use Rattle.mt_decode_laws.specs.Laws.{ImagesAreDecoded, LiveTextsAreNumbered, NumbersAreLive, TextsAreDecoded};

/// The tables of valid texts are decoded to these texts.
pub fn texts_are_decoded()
    ensures { TextsAreDecoded }
{}

/// Tables that are made by some images are made by any others that agree with what the tables are decoded to.
pub fn images_are_decoded()
    ensures { ImagesAreDecoded }
{}

/// In a group of a segment all its texts stand, and those are live whose numbers were given.
pub fn numbers_are_live()
    ensures { NumbersAreLive }
{}

/// The live texts of a group are those of its texts that have the live numbers.
pub fn live_texts_are_numbered()
    ensures { LiveTextsAreNumbered }
{}
