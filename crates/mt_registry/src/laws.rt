//! Laws of the definitions that `read_registry` keeps: that they say one thing of each file.

ghost use Rattle.mt_registry.specs.RegistryForms.{FormsAreWritten};
ghost use Rattle.mt_registry.specs.RegistryLaws.{AreApart, OneFault, OneRegistry, ValidRegistries};

/// No file is read as two registries: this function proves it, and does nothing.
pub fn one_registry()
    ensures { OneRegistry }
{}

/// Whatever a file is read as is valid: this function proves it, and does nothing.
pub fn valid_registries()
    ensures { ValidRegistries }
{}

/// No file has two first faults: this function proves it, and does nothing.
pub fn one_registry_fault()
    ensures { OneFault }
{}

/// No file has two kinds of answer: this function proves it, and does nothing.
pub fn one_registry_answer()
    ensures { AreApart }
{}

/// The forms of lines are read as they are written: this function proves it, and does nothing.
pub fn forms_are_written()
    ensures { FormsAreWritten }
{}
