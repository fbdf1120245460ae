//! Why a file is no registry.

ghost use Rattle.std.specs.Prelude.{◌≡◌};
ghost use Rattle.mt_file_spec.specs.RegistryFile.{registry_cause};
ghost use Rattle.mt_registry.specs.RegistryErrors.{registry_cause_of};

use mt_base::NoMemory;

/// Why a line is refused.
#[derive(Clone, Copy, Debug, PartialEq, Eq, Drop)]
pub enum RegistryCause {
    /// It has no form, is not UTF-8, declares what is no identifier, or breaks the nesting of blocks.
    Syntax,
    /// It declares or gives something again.
    Twice,
    /// It declares a 17th attribute, structure or attribute of a structure.
    TooMany,
    /// It names no mapper at hand.
    UnknownMapper,
    /// It names no attribute that is declared and fits, or is a DYNAMIC without FROMATTR.
    UnknownBase,
}

impl RegistryCause {
    /// The word that replies have for it.
    pub fn word(&self) -> &'static str
        ensures { result.now ≡ registry_cause (registry_cause_of self.now) }
    {
        match self {
            RegistryCause::Syntax => "Syntax",
            RegistryCause::Twice => "Twice",
            RegistryCause::TooMany => "TooMany",
            RegistryCause::UnknownMapper => "UnknownMapper",
            RegistryCause::UnknownBase => "UnknownBase",
        }
    }
}

/// A line that is refused.
#[derive(Clone, Copy, Debug, PartialEq, Eq, Drop)]
pub struct BadLine {
    /// Its number, from 1.
    pub line: usize,
    /// The first of its causes.
    pub cause: RegistryCause,
}

/// Why a file is no registry.
#[derive(Clone, Copy, Debug, PartialEq, Eq, Drop)]
pub enum RegistryError {
    /// This line is the first that has a cause.
    Bad(BadLine),
    /// No line has a cause, but no base attribute is declared.
    NoAttribute,
    /// There was not enough memory. This says nothing of the file.
    NoMemory,
}

impl From<NoMemory> for RegistryError {
    ghost use Rattle.mt_registry.specs.declared.error.RegistryError.TheVariants.{NoMemory as OutOfMemory};

    ghost from_gives = { λ _ e. e ≡ OutOfMemory };

    fn from(_: NoMemory) -> Self {
        RegistryError::NoMemory
    }
}
