//! The registry for which generated texts are made.

ghost use Rattle.std.specs.Prelude.{◌≡◌, ◌↔◌, ◌∷◌, [], IsTrue, codes};
ghost use Rattle.mt_text_spec.specs.Registries.{base_attr, standard_registry};

use mt_base::{Attr, Kind, List, Registry};

/// Whether this is the standard registry.
pub fn is_standard(registry: &Registry) -> bool
    ensures { IsTrue result ↔ (registry.now ≡ standard_registry) }
{
    are_standard_attrs(registry.attrs())
        && are_standard_kinds(registry.kinds())
        && registry.ws_attr() == 2
}

/// Whether these are its attributes.
fn are_standard_attrs(attrs: &List<Attr>) -> bool
    ensures { IsTrue result ↔ (attrs.now ≡ standard_registry.attrs) }
{
    attrs.len() == 3
        && is_base(attrs.get(0), "word")
        && is_base(attrs.get(1), "tag")
        && is_base(attrs.get(2), "lemma")
}

/// Whether this is the base attribute of this name.
fn is_base(attr: &Attr, name: &str) -> bool
    ensures { IsTrue result ↔ (attr.now ≡ base_attr name.now) }
{
    attr.name().as_str() == name && attr.base().is_none() && attr.mapper().as_str().is_empty()
}

/// Whether these are its kinds.
fn are_standard_kinds(kinds: &List<Kind>) -> bool
    ensures { IsTrue result ↔ (kinds.now ≡ standard_registry.kinds) }
{
    kinds.len() == 3
        && is_document(kinds.get(0))
        && is_bare(kinds.get(1), "s")
        && is_bare(kinds.get(2), "g")
}

/// Whether this is the kind of documents, which have a name.
fn is_document(kind: &Kind) -> bool
    ensures { IsTrue result ↔ (kind.now ≡ record { name = codes "doc"; attrs = codes "id" ∷ [] }) }
{
    kind.name().as_str() == "doc" && kind.attrs().len() == 1 && kind.attrs().get(0).as_str() == "id"
}

/// Whether this is the kind of this name that has no attributes.
fn is_bare(kind: &Kind, name: &str) -> bool
    ensures { IsTrue result ↔ (kind.now ≡ record { name = name.now; attrs = [] }) }
{
    kind.name().as_str() == name && kind.attrs().is_empty()
}
