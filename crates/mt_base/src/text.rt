//! Texts and their instances of structures, seen as the records of `mt_text_spec`.

ghost use Rattle.std.specs.Prelude.{◌≡◌, ◌<◌, length, nat_eq, IfOk};
ghost use Rattle.mt_text_spec.specs.Texts as spec;

use super::{List, NoMemory, Tokens, Value};
use std::alloc::Global;
use std::marker::Model;

/// An instance of a structure in a text: the number of its kind, where it begins and where it ends, as numbers of tokens before either, and one value for
/// each attribute of its kind.
#[derive(Debug, Drop)]
pub struct StructSpan {
    kind: u16,
    begin: u32,
    end: u32,
    values: List<Value>,
}

impl Model for StructSpan {
    ghost Value = { spec.StructSpan };

    ghost view = { λ s. record { kind = s.kind; begin = s.begin; end = s.end; values = s.values } };
}

impl StructSpan {
    /// The instance of this kind from one place to the other with these values. It takes no memory.
    pub fn new(kind: u16, begin: u32, end: u32, values: List<Value>) -> Self
        ensures { result ≡ record { kind = kind; begin = begin; end = end; values = values } }
    {
        StructSpan {
            kind,
            begin,
            end,
            values,
        }
    }

    /// The number of its kind.
    pub fn kind(&self) -> u16
        ensures { result ≡ self.now.kind }
    {
        self.kind
    }

    /// How many tokens of its text stand before its begin.
    pub fn begin(&self) -> u32
        ensures { result ≡ self.now.begin }
    {
        self.begin
    }

    /// How many tokens of its text stand before its end.
    pub fn end(&self) -> u32
        ensures { result ≡ self.now.end }
    {
        self.end
    }

    /// The values of the attributes of its kind.
    pub fn values(&self) -> &List<Value>
        ensures { result.now ≡ self.now.values }
    {
        &self.values
    }

    /// An equal instance, whose values take just the room that they need.
    pub fn copy(&self, alloc: Global) -> Result<Self, NoMemory>
        ensures { IfOk result (λ copy. copy ≡ self.now) }
    {
        let values = self.values.copy(alloc)?;
        Ok(StructSpan::new(self.kind, self.begin, self.end, values))
    }
}

/// A text: a name, its tokens in order, and its instances of structures in order of kind and place.
#[derive(Debug, Drop)]
pub struct Text {
    name: Value,
    tokens: Tokens,
    structs: List<StructSpan>,
}

impl Model for Text {
    ghost Value = { spec.Text };

    ghost view = { λ t. record { name = t.name; tokens = t.tokens.tokens; structs = t.structs } };
}

impl Text {
    /// The text of this name with these tokens and instances. It takes no memory.
    pub fn new(name: Value, tokens: Tokens, structs: List<StructSpan>) -> Self
        ensures { result ≡ record { name = name; tokens = tokens.tokens; structs = structs } }
    {
        Text {
            name,
            tokens,
            structs,
        }
    }

    /// The name.
    pub fn name(&self) -> &Value
        ensures { result.now ≡ self.now.name }
    {
        &self.name
    }

    /// The tokens.
    pub fn tokens(&self) -> &Tokens
        ensures { result.now.tokens ≡ self.now.tokens }
    {
        &self.tokens
    }

    /// The instances of structures.
    pub fn structs(&self) -> &List<StructSpan>
        ensures { result.now ≡ self.now.structs }
    {
        &self.structs
    }

    /// How many tokens there are.
    pub fn len(&self) -> usize
        ensures { result ≡ length self.now.tokens }
    {
        self.tokens.len()
    }

    /// Whether there is no token.
    pub fn is_empty(&self) -> bool
        ensures { result ≡ nat_eq (length self.now.tokens) 0 }
    {
        self.tokens.is_empty()
    }
}
