//! Laws of the definitions of generated texts.

ghost use Rattle.mt_generate_laws.specs.Laws.{ReadsBack, ValidTexts};

/// Whatever is generated is valid under the standard registry: this function proves it, and does nothing.
pub fn valid_texts()
    ensures { ValidTexts }
{}

/// The vertical that is generated is read as the generated text under the standard registry: this function proves it, and does nothing.
pub fn reads_back()
    ensures { ReadsBack }
{}
