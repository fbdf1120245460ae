//! Looking up the names of attributes and kinds.

ghost use Rattle.std.specs.Prelude.{◌≡◌, option_copied};
ghost use Rattle.mt_text_spec.specs.Registries.{ValidRegistry, attr_names, kind_names};
ghost use Rattle.mt_query_spec.specs.Meaning as meaning;
ghost use Rattle.mt_cql.specs.Named.{names_in};

use mt_base::Registry;
use mt_query_laws::name_numbers;

/// The number of the attribute of tokens of this name.
pub fn find_attr(registry: &Registry, name: &str) -> Option<u16>
    requires { ValidRegistry registry.now }
    ensures { result ≡ meaning.number_of (attr_names registry.now.attrs) name.now }
{
    name_numbers();
    registry.find_attr(name)
}

/// The number of the kind of this name.
pub fn find_kind(registry: &Registry, name: &str) -> Option<u16>
    requires { ValidRegistry registry.now }
    ensures { result ≡ meaning.number_of (kind_names registry.now.kinds) name.now }
{
    name_numbers();
    registry.find_kind(name)
}

/// The number of the attribute of this name, of tokens or of the kind that `tag` names.
pub fn find(registry: &Registry, tag: Option<&str>, name: &str) -> Option<u16>
    requires { ValidRegistry registry.now }
    ensures { result ≡ meaning.number_of (names_in registry.now (option_copied tag.entry)) name.now }
{
    name_numbers();
    match tag {
        None => find_attr(registry, name),
        Some(kind) => match find_kind(registry, kind) {
            None => None,
            Some(kind) => registry.find_kind_attr(kind, name),
        },
    }
}

/// The place of a name that is not declared.
pub fn undeclared(at: u32, found: Option<u16>) -> Option<u32>
    ensures { result ≡ meaning.undeclared at found }
{
    match found {
        Some(_) => None,
        None => Some(at),
    }
}

/// The number of a name, or 0 in a query that is refused for it.
pub fn or_first(found: Option<u16>) -> u16
    ensures { result ≡ meaning.or_first found }
{
    match found {
        Some(n) => n,
        None => 0,
    }
}
