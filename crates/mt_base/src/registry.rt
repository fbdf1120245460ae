//! Registries, seen as the records of `mt_text_spec`.

ghost use Rattle.std.specs.Prelude.{◌≡◌, ℕ, ◌<◌, ◌≤◌, List as Bytes, length, map, slice_get, Some, IfOk, IfSome, IfNone};
ghost use Rattle.std.specs.List.{Contains};
ghost use Rattle.mt_text_spec.specs.Registries as spec;
ghost use Rattle.mt_text_spec.specs.Registries.{ValidRegistry, IsBaseAt, standard_registry, column_of, attr_names, kind_names, kind_attrs};

use super::{List, NoMemory, Value};
use std::alloc::Global;
use std::marker::Model;

/// An attribute of tokens.
#[derive(Debug, Drop)]
pub struct Attr {
    name: Value,
    base: Option<u16>,
    mapper: Value,
}

impl Model for Attr {
    ghost Value = { spec.Attr };

    ghost view = { λ a. record { name = a.name; base = a.base; mapper = a.mapper } };
}

impl Attr {
    /// The attribute of this name: a base attribute, whose values the texts have, where `base` is `None` and the mapper's name is empty;
    /// else one whose values the mapper makes of the attribute with the number `base`. It takes no memory.
    pub fn new(name: Value, base: Option<u16>, mapper: Value) -> Self
        ensures { result ≡ record { name = name; base = base; mapper = mapper } }
    {
        Attr { name, base, mapper }
    }

    /// The name.
    pub fn name(&self) -> &Value
        ensures { result.now ≡ self.now.name }
    {
        &self.name
    }

    /// The number of the attribute whose values are mapped, or `None` where this is a base attribute.
    pub fn base(&self) -> Option<u16>
        ensures { result ≡ self.now.base }
    {
        self.base
    }

    /// The mapper's name, which is empty for a base attribute.
    pub fn mapper(&self) -> &Value
        ensures { result.now ≡ self.now.mapper }
    {
        &self.mapper
    }

    /// Whether this is a base attribute.
    pub fn is_base(&self) -> bool
        ensures { result ≡ spec.is_base self.now }
    {
        self.base.is_none()
    }
}

/// A kind of structure.
#[derive(Debug, Drop)]
pub struct Kind {
    name: Value,
    attrs: List<Value>,
}

impl Model for Kind {
    ghost Value = { spec.Kind };

    ghost view = { λ k. record { name = k.name; attrs = k.attrs } };
}

impl Kind {
    /// The kind of this name, whose attributes have these names. It takes no memory.
    pub fn new(name: Value, attrs: List<Value>) -> Self
        ensures { result ≡ record { name = name; attrs = attrs } }
    {
        Kind { name, attrs }
    }

    /// The name.
    pub fn name(&self) -> &Value
        ensures { result.now ≡ self.now.name }
    {
        &self.name
    }

    /// The names of the attributes, in order of declaration.
    pub fn attrs(&self) -> &List<Value>
        ensures { result.now ≡ self.now.attrs }
    {
        &self.attrs
    }
}

/// What a corpus declares: the attributes of its tokens and the kinds of its structures.
#[derive(Debug, Drop)]
pub struct Registry {
    attrs: List<Attr>,
    kinds: List<Kind>,
    ws_attr: u16,
}

impl Model for Registry {
    ghost Value = { spec.Registry };

    ghost view = { λ r. record { attrs = r.attrs; kinds = r.kinds; ws_attr = r.ws_attr } };
}

impl Registry {
    /// The registry of these attributes and kinds, where sketches count the values of the attribute with the number `ws_attr`. It takes no memory.
    pub fn new(attrs: List<Attr>, kinds: List<Kind>, ws_attr: u16) -> Self
        ensures { result ≡ record { attrs = attrs; kinds = kinds; ws_attr = ws_attr } }
    {
        Registry {
            attrs,
            kinds,
            ws_attr,
        }
    }

    /// The registry that holds where no other was accepted.
    pub fn standard(alloc: Global) -> Result<Self, NoMemory>
        ensures { IfOk result (λ registry. registry ≡ standard_registry) }
    {
        Ok(Registry::new(standard_attrs(alloc)?, standard_kinds(alloc)?, 2))
    }

    /// The attributes, in order of declaration.
    pub fn attrs(&self) -> &List<Attr>
        ensures { result.now ≡ self.now.attrs }
    {
        &self.attrs
    }

    /// The kinds of structures, in order of declaration.
    pub fn kinds(&self) -> &List<Kind>
        ensures { result.now ≡ self.now.kinds }
    {
        &self.kinds
    }

    /// The number of the attribute whose values sketches count.
    pub fn ws_attr(&self) -> u16
        ensures { result ≡ self.now.ws_attr }
    {
        self.ws_attr
    }

    /// The number of the attribute of this name.
    pub fn find_attr(&self, name: &str) -> Option<u16>
        requires { ValidRegistry self.now }
        ensures found { IfSome result (λ n. slice_get (attr_names self.now.attrs) n ≡ Some name.now) }
        ensures none { IfNone result (¬ Contains (attr_names self.now.attrs) name.now) }
    {
        Some(place_of(self.attrs.as_slice(), name)? as u16)
    }

    /// The number of the kind of this name.
    pub fn find_kind(&self, name: &str) -> Option<u16>
        requires { ValidRegistry self.now }
        ensures found { IfSome result (λ n. slice_get (kind_names self.now.kinds) n ≡ Some name.now) }
        ensures none { IfNone result (¬ Contains (kind_names self.now.kinds) name.now) }
    {
        Some(place_of(self.kinds.as_slice(), name)? as u16)
    }

    /// The number of the attribute of this name among those of a kind.
    pub fn find_kind_attr(&self, kind: u16, name: &str) -> Option<u16>
        requires valid { ValidRegistry self.now }
        requires declared { kind < length self.now.kinds }
        ensures found { IfSome result (λ n. slice_get (kind_attrs self.now.kinds kind) n ≡ Some name.now) }
        ensures none { IfNone result (¬ Contains (kind_attrs self.now.kinds kind) name.now) }
    {
        let kind = self.kinds.get(kind as usize);
        Some(place_of(kind.attrs().as_slice(), name)? as u16)
    }

    /// The place of a base attribute's value among the values of a token. None for a number of no base attribute.
    pub fn column(&self, attr: u16) -> Option<u16>
        requires { ValidRegistry self.now }
        ensures found { IfSome result (λ n. n ≡ column_of self.now.attrs attr) }
        ensures base { IfSome result (λ n. IsBaseAt self.now.attrs attr) }
        ensures none { IfNone result (¬ IsBaseAt self.now.attrs attr) }
    {
        if !self.attrs.as_slice().get(attr as usize)?.is_base() {
            return None;
        }
        Some(self.bases_before(attr) as u16)
    }

    /// How many base attributes are declared before the attribute with this number.
    pub fn bases_before(&self, attr: u16) -> usize
        requires { attr < length self.now.attrs }
        ensures place { result ≡ column_of self.now.attrs attr }
        ensures few { result ≤ attr }
    {
        base_count(&self.attrs.as_slice()[..attr as usize])
    }
}

/// What has a name.
trait Named {
    /// The name.
    ghost called: { Self → Bytes ℕ };

    /// The name.
    fn called(&self) -> &str
        ensures { result.now ≡ called self.now };
}

impl Named for Attr {
    ghost called = { λ attr. attr.name };

    fn called(&self) -> &str {
        self.name.as_str()
    }
}

impl Named for Kind {
    ghost called = { λ kind. kind.name };

    fn called(&self) -> &str {
        self.name.as_str()
    }
}

impl Named for Value {
    ghost called = { λ value. value };

    fn called(&self) -> &str {
        self.as_str()
    }
}

/// The first place at which something of this name stands.
fn place_of<T: Named>(items: &[T], name: &str) -> Option<usize>
    ensures found { IfSome result (λ n. slice_get (map T.called items.now) n ≡ Some name.now) }
    ensures within { IfSome result (λ n. n < length items.now) }
    ensures none { IfNone result (¬ Contains (map T.called items.now) name.now) }
{
    for at in 0..items.len() {
        if items[at].called() == name {
            return Some(at);
        }
    }
    None
}

/// How many of these attributes are base attributes.
fn base_count(attrs: &[Attr]) -> usize
    ensures count { result ≡ spec.base_count attrs.now }
    ensures few { result ≤ length attrs.now }
{
    attrs.iter().filter(|attr| attr.is_base()).count()
}

/// `word`, `tag` and `lemma`.
fn standard_attrs(alloc: Global) -> Result<List<Attr>, NoMemory>
    ensures { IfOk result (λ attrs. attrs ≡ standard_registry.attrs) }
{
    let mut attrs = List::with_capacity(alloc, 3)?;
    attrs.push(base_attr(alloc, "word")?)?;
    attrs.push(base_attr(alloc, "tag")?)?;
    attrs.push(base_attr(alloc, "lemma")?)?;
    Ok(attrs)
}

/// A base attribute of this name.
fn base_attr(alloc: Global, name: &str) -> Result<Attr, NoMemory>
    ensures { IfOk result (λ attr. attr ≡ spec.base_attr name.now) }
{
    Ok(Attr::new(
        Value::new(alloc, name)?,
        None,
        Value::from_string(String::new(alloc)),
    ))
}

/// `doc` with the attribute `id`, `s` and `g`.
fn standard_kinds(alloc: Global) -> Result<List<Kind>, NoMemory>
    ensures { IfOk result (λ kinds. kinds ≡ standard_registry.kinds) }
{
    let mut ids = List::with_capacity(alloc, 1)?;
    ids.push(Value::new(alloc, "id")?)?;
    let mut kinds = List::with_capacity(alloc, 3)?;
    kinds.push(Kind::new(Value::new(alloc, "doc")?, ids))?;
    kinds.push(Kind::new(Value::new(alloc, "s")?, List::new(alloc)))?;
    kinds.push(Kind::new(Value::new(alloc, "g")?, List::new(alloc)))?;
    Ok(kinds)
}
