//! The numbers of names.

ghost use Rattle.std.specs.Prelude.{◌≡◌, ◌<◌, ℕ, List, Option, Some, length, slice_get, IfSome, IfNone};
ghost use Rattle.std.specs.List.{Contains};
ghost use Rattle.mt_text_spec.specs.Registries.{AreDistinct, Registry, ValidRegistry, kind_names, kind_attrs};
ghost use Rattle.mt_query_spec.specs.Meaning.{number_of, attrs_of_kind};

/// What a look-up finds among distinct names is the name's number; so it is among the attributes of a kind by its name. The number of a kind is that of one
/// that is declared.
pub fn name_numbers()
    ensures found { (names : List (List ℕ)) (name : List ℕ) (found : Option ℕ) → AreDistinct names → IfSome found (λ n. slice_get names n ≡ Some name)
        → IfNone found (Contains names name → ⊥) → found ≡ number_of names name }
    ensures declared { (registry : Registry) (name : List ℕ) (n : ℕ) → Some n ≡ number_of (kind_names registry.kinds) name → n < length registry.kinds }
    ensures attribute { (registry : Registry) (kind name : List ℕ) (n : ℕ) (found : Option ℕ) → ValidRegistry registry
        → Some n ≡ number_of (kind_names registry.kinds) kind → IfSome found (λ k. slice_get (kind_attrs registry.kinds n) k ≡ Some name)
        → IfNone found (Contains (kind_attrs registry.kinds n) name → ⊥) → found ≡ number_of (attrs_of_kind registry kind) name }
{}
