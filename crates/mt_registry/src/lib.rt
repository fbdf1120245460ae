//! How registries are read from their files.
#![tactic(auto)]

ghost use Rattle.std.specs.Prelude.{◌≡◌, IfOk, IfErr};
ghost use Rattle.mt_text_spec.specs.Registries.{ValidRegistry};
ghost use Rattle.mt_text_spec.specs.Registries as registries;
ghost use Rattle.mt_file_spec.specs.RegistryFile.{ReadsRegistry};
ghost use Rattle.mt_file_spec.specs.RegistryFile as spec;
ghost use Rattle.mt_registry.specs.RegistryErrors.{IsRefusal};

mod block;
mod build;
mod causes;
mod error;
mod faults;
mod form;
mod laws;
mod lines;

pub use error::{BadLine, RegistryCause, RegistryError};
use faults::first_fault;
pub use laws::{
    forms_are_written, one_registry, one_registry_answer, one_registry_fault, valid_registries,
};
use lines::{Reader, read_lines};
use mt_base::{List, Registry, Value};
use std::alloc::Global;

/// The registry that a file declares. The names of the mappers at hand are those that its attributes may have.
///
/// It goes over the file once, and then over what its lines state. Its steps are linear in the file: names are looked up among those of
/// the first attributes, of which there are at most 16 before a fault.
pub fn read_registry(
    alloc: Global,
    bytes: &[u8],
    mappers: &List<Value>,
) -> Result<Registry, RegistryError>
    ensures read { IfOk result (λ registry. ReadsRegistry mappers.now bytes.now registry) }
    ensures valid { IfOk result (λ registry. ValidRegistry registry) }
    ensures refused { IfErr result (λ error. IsRefusal mappers.now bytes.now error) }
    ensures only { (registry : registries.Registry) → ReadsRegistry mappers.now bytes.now registry → IfErr result (λ error. error ≡ RegistryError.NoMemory) }
{
    let reader = read_file(alloc, bytes, mappers)?;
    let registry = build::registry_of(alloc, mappers, reader.statements.as_slice())?;
    if base_count(&registry) == 0 {
        Err(RegistryError::NoAttribute)
    } else {
        Ok(registry)
    }
}

/// What a faultless file states.
fn read_file<'a>(
    alloc: Global,
    bytes: &'a [u8],
    mappers: &List<Value>,
) -> Result<Reader<'a>, RegistryError>
    ensures read { IfOk result (λ reader. reader.statements.items ≡ spec.statements_of (spec.file_of bytes.now).lines) }
    ensures faultless { IfOk result (λ reader. spec.IsFaultless mappers.now (spec.file_of bytes.now)) }
    ensures refused { IfErr result (λ error. IsRefusal mappers.now bytes.now error) }
{
    let reader = read_lines(alloc, bytes)?;
    match first_fault(mappers, &reader) {
        Some(bad) => Err(RegistryError::Bad(bad)),
        None => Ok(reader),
    }
}

/// How many base attributes are declared.
fn base_count(registry: &Registry) -> usize
    ensures { result ≡ registries.base_count registry.now.attrs }
{
    registry
        .attrs()
        .as_slice()
        .iter()
        .filter(|attr| attr.is_base())
        .count()
}
