//! Why bytes are no text.

ghost use Rattle.std.specs.Prelude.{◌≡◌};
ghost use Rattle.mt_file_spec.specs.Vertical.{text_cause};
ghost use Rattle.mt_vertical.specs.Causes.{text_cause_of};

use mt_base::NoMemory;

/// Why a line is refused.
#[derive(Clone, Copy, Debug, PartialEq, Eq, Drop)]
pub enum TextCause {
    /// It is not UTF-8.
    NotUtf8,
    /// It is a token behind as many as a text may have.
    TooManyTokens,
    /// A value that it gives the text is longer than 1,024 bytes.
    ValueTooLong,
}

impl TextCause {
    /// The word that replies have for it.
    pub fn word(&self) -> &'static str
        ensures { result.now ≡ text_cause (text_cause_of self.now) }
    {
        match self {
            TextCause::NotUtf8 => "NotUtf8",
            TextCause::TooManyTokens => "TooManyTokens",
            TextCause::ValueTooLong => "ValueTooLong",
        }
    }
}

/// A line that is refused.
#[derive(Clone, Copy, Debug, PartialEq, Eq, Drop)]
pub struct BadLine {
    /// Its number, from 1.
    pub line: usize,
    /// The first of its causes.
    pub cause: TextCause,
}

/// Why bytes are no text.
#[derive(Clone, Copy, Debug, PartialEq, Eq, Drop)]
pub enum TextError {
    /// This line is the first that has a cause.
    Bad(BadLine),
    /// There was not enough memory. This says nothing of the bytes.
    NoMemory,
}

impl From<NoMemory> for TextError {
    ghost use Rattle.mt_vertical.specs.declared.error.TextError.TheVariants.{NoMemory as OutOfMemory};

    ghost from_gives = { λ _ e. e ≡ OutOfMemory };

    fn from(_: NoMemory) -> Self {
        TextError::NoMemory
    }
}
