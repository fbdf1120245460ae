//! How much the texts of a corpus may hold, by the names of the definitions of `mt_text_spec`.

/// The most bytes of a value.
pub const VALUE_BYTES_LIMIT: usize = 1024;

/// The most tokens of a text.
pub const TEXT_TOKENS_LIMIT: usize = 1_048_576;

/// The most texts of a corpus.
pub const CORPUS_TEXTS_LIMIT: usize = 65_536;

/// The most tokens of all texts of a corpus together.
pub const CORPUS_TOKENS_LIMIT: usize = 4_194_304;
