//! Laws of the definitions that the reader keeps: that they say one thing of each script.

ghost use Rattle.mt_script.specs.Laws.{OneHeader, OneReading};

/// No line is two commands: this function proves it, and does nothing.
pub fn one_header()
    ensures { OneHeader }
{}

/// No script is two lists of items, and none has two rests: this function proves it, and does nothing.
pub fn one_reading()
    ensures { OneReading }
{}
