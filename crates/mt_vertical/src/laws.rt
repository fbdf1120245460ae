//! Laws of the definitions that the reader of verticals keeps: that they say one thing of all bytes.

ghost use Rattle.mt_vertical.specs.TextLaws.{NoTextWithFault, OneFault, OneRole, OneText, ValidTexts};

/// No line does two things: this function proves it, and does nothing.
pub fn one_role()
    ensures { OneRole }
{}

/// No bytes are two texts: this function proves it, and does nothing.
pub fn one_text()
    ensures { OneText }
{}

/// No bytes in which a line has a cause are a text: this function proves it, and does nothing.
pub fn no_text_with_fault()
    ensures { NoTextWithFault }
{}

/// No two lines are the first with a cause, and none has two first causes: this function proves it, and does nothing.
pub fn one_fault()
    ensures { OneFault }
{}

/// Whatever bytes are read as is valid: this function proves it, and does nothing.
pub fn valid_texts()
    ensures { ValidTexts }
{}
