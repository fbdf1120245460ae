//! Looking up the names of attributes and structures.

ghost use Rattle.std.specs.Prelude.{◌≡◌, ◌<◌, length, IfSome, IfNone};
ghost use Rattle.std.specs.List.{Contains};
ghost use Rattle.mt_text_spec.specs.Registries.{ValidRegistry, attr_names, kind_names};
ghost use Rattle.mt_grammar_spec.specs.GrammarFile.{place_of};

use mt_base::Registry;
use std::str;

/// The number of the attribute of this name.
pub fn find_attr(registry: &Registry, name: &[u8]) -> Option<u16>
    requires { ValidRegistry registry.now }
    ensures found { IfSome result (λ n. n ≡ place_of name.now (attr_names registry.now.attrs)) }
    ensures declared { IfSome result (λ n. n < length registry.now.attrs) }
    ensures there { IfSome result (λ n. Contains (attr_names registry.now.attrs) name.now) }
    ensures none { IfNone result (Contains (attr_names registry.now.attrs) name.now → ⊥) }
{
    match str::from_utf8(name) {
        Ok(name) => registry.find_attr(name),
        Err(_) => None,
    }
}

/// The number of the structure of this name.
pub fn find_kind(registry: &Registry, name: &[u8]) -> Option<u16>
    requires { ValidRegistry registry.now }
    ensures found { IfSome result (λ n. n ≡ place_of name.now (kind_names registry.now.kinds)) }
    ensures declared { IfSome result (λ n. n < length registry.now.kinds) }
    ensures there { IfSome result (λ n. Contains (kind_names registry.now.kinds) name.now) }
    ensures none { IfNone result (Contains (kind_names registry.now.kinds) name.now → ⊥) }
{
    match str::from_utf8(name) {
        Ok(name) => registry.find_kind(name),
        Err(_) => None,
    }
}
