//! The segment.

ghost use Rattle.std.specs.Prelude.{◌≡◌, ℕ, ◌+◌, ◌*◌, ◌<◌, ◌≤◌, [], ◌∷◌, length, slice_index, slice_index_or, None, IsSome};
ghost use Rattle.std.specs.List.{flat_map};
ghost use Rattle.mt_segment_spec.specs.Tables as spec;
ghost use Rattle.mt_segment.specs.Ends.{AreInnerEnds};
ghost use Rattle.mt_segment.specs.Lists.{groups};
ghost use Rattle.mt_segment_spec.specs.Tables.{AreTables, first_place, number_at, tables_at, token_count};

use super::lists::Lists;
use super::table::{AttrTables, Column, MappedTable, Numbers};
use mt_base::{List, Steps, StructSpan, Value};
use mt_lexicon::Lexicon;
use mt_postings::Postings;
use mt_segment_laws::tables_are_whole;
use std::marker::Model;
use std::sync::ledger::Ledger;

/// The tables of some texts, at least one. They are always those of valid texts under a registry and some images of its mappers.
#[derive(Debug, Drop)]
pub struct Segment {
    texts: List<(Value, u32)>,
    ends: Vec<u32>,
    attrs: List<AttrTables>,
    kinds: u16,
    structs: Lists<StructSpan>,
}

impl Model for Segment {
    ghost use Rattle.std.specs.Prelude.{◌≡◌, ◌*◌, length};
    ghost use Rattle.mt_segment_spec.specs.Tables as spec;
    ghost use Rattle.mt_segment_spec.specs.Tables.{AreTables};
    ghost use Rattle.mt_segment.specs.Ends.{AreInnerEnds};
    ghost use Rattle.mt_segment.specs.Lists.{groups};

    ghost Value = { spec.Tables };

    ghost view = { λ s. record { texts = s.texts; attrs = s.attrs; structs = groups (length s.texts) s.kinds s.structs } };

    ghost invariant = { λ s. AreTables (record { texts = s.texts; attrs = s.attrs; structs = groups (length s.texts) s.kinds s.structs }) × AreInnerEnds s.texts s.ends.items × (length s.structs ≡ s.kinds * length s.texts) };
}

impl Segment {
    /// The segment with these tables, where its texts but the last one end at these places.
    pub(crate) fn from_parts(
        texts: List<(Value, u32)>,
        ends: Vec<u32>,
        attrs: List<AttrTables>,
        kinds: u16,
        structs: Lists<StructSpan>,
    ) -> Self
        requires tables { AreTables (record { texts = texts; attrs = attrs; structs = groups (length texts) kinds structs }) }
        requires ends { AreInnerEnds texts ends.items }
        requires structs { length structs ≡ kinds * length texts }
        ensures { result ≡ record { texts = texts; attrs = attrs; structs = groups (length texts) kinds structs } }
    {
        Segment {
            texts,
            ends,
            attrs,
            kinds,
            structs,
        }
    }

    /// How many texts there are.
    pub fn texts(&self) -> u32
        ensures count { result ≡ length self.now.texts }
        ensures valid { AreTables self.now }
    {
        self.texts.len() as u32
    }

    /// How many tokens the texts have together.
    pub fn tokens(&self) -> u32
        ensures count { result ≡ token_count self.now }
        ensures valid { AreTables self.now }
    {
        let last = self.texts() - 1;
        self.text_bounds(last).1
    }

    /// The name of a text, by its number in the segment.
    pub fn text_name(&self, i: u32) -> &str
        requires { i < length self.now.texts }
        ensures { result.now ≡ (slice_index_or self.now.texts i ([], 0)).0 }
    {
        self.texts.get(i as usize).0.as_str()
    }

    /// The place of a text's first token, and the place behind its last one.
    pub fn text_bounds(&self, i: u32) -> (u32, u32)
        requires { i < length self.now.texts }
        ensures begin { result.0 ≡ first_place self.now i }
        ensures end { result.1 ≡ first_place self.now (i + 1) }
        ensures order { result.0 ≤ result.1 }
        ensures within { result.1 ≤ token_count self.now }
    {
        let begin = begin_of(self.ends.as_slice(), i as usize);
        (begin, begin + self.texts.get(i as usize).1)
    }

    /// The number of an attribute's value at a place. It is one step.
    pub fn value_id<L: Ledger>(&self, attr: u16, pos: u32, steps: &mut Steps<L>) -> u32
        requires attr { attr < length self.now.attrs }
        requires pos { pos < token_count self.now }
        ensures number { result ≡ number_at self.now attr pos }
        ensures within { result < length (tables_at self.now.attrs attr).lexicon }
        ensures tick { steps.new ≡ steps.old + 1 }
    {
        tables_are_whole();
        steps.tick();
        self.number(attr, pos)
    }

    /// The number of an attribute's value at a place.
    fn number(&self, attr: u16, pos: u32) -> u32
        requires attr { attr < length self.now.attrs }
        requires pos { pos < token_count self.now }
        ensures number { result ≡ number_at self.now attr pos }
        ensures valid { AreTables self.now }
    {
        tables_are_whole();
        let tables = self.attrs.get(attr as usize);
        let pos = pos as usize;
        match &tables.numbers {
            Numbers::Base(_) => tables.numbers.as_slice()[pos],
            Numbers::Mapped(base, table) => {
                table.get(self.attrs.get(*base as usize).numbers.as_slice()[pos])
            }
        }
    }

    /// The places of an attribute's value, by its number.
    pub fn postings(&self, attr: u16, id: u32) -> &Postings
        requires attr { attr < length self.now.attrs }
        requires id { id < length (tables_at self.now.attrs attr).lexicon }
        ensures { result.now ≡ slice_index_or (tables_at self.now.attrs attr).postings id [] }
    {
        tables_are_whole();
        self.attrs.get(attr as usize).postings.get(id as usize)
    }

    /// The distinct values of an attribute.
    pub fn lexicon(&self, attr: u16) -> &Lexicon
        requires { attr < length self.now.attrs }
        ensures { result.now ≡ (tables_at self.now.attrs attr).lexicon }
    {
        &self.attrs.get(attr as usize).lexicon
    }

    /// The number of the base of a mapped attribute.
    pub fn base(&self, attr: u16) -> Option<u16>
        requires { attr < length self.now.attrs }
        ensures { result ≡ (tables_at self.now.attrs attr).base }
    {
        self.attrs.get(attr as usize).numbers.base()
    }

    /// For each token the number of its value at a base attribute.
    pub fn column(&self, attr: u16) -> &Column
        requires attr { attr < length self.now.attrs }
        requires base { (tables_at self.now.attrs attr).base ≡ None }
        ensures { result.now ≡ (tables_at self.now.attrs attr).numbers }
    {
        match &self.attrs.get(attr as usize).numbers {
            Numbers::Base(column) => column,
            Numbers::Mapped(_, _) => unreachable!(),
        }
    }

    /// For each value of the base of a mapped attribute the number of its image.
    pub fn table(&self, attr: u16) -> &MappedTable
        requires attr { attr < length self.now.attrs }
        requires mapped { IsSome (tables_at self.now.attrs attr).base }
        ensures { result.now ≡ (tables_at self.now.attrs attr).numbers }
    {
        match &self.attrs.get(attr as usize).numbers {
            Numbers::Base(_) => unreachable!(),
            Numbers::Mapped(_, table) => table,
        }
    }

    /// The instances of a kind of structure in all texts, text by text.
    pub fn structs(&self, kind: u16) -> &[StructSpan]
        requires { kind < length self.now.structs }
        ensures { result.now ≡ flat_map (λ spans. spans) (slice_index_or self.now.structs kind []) }
    {
        let texts = self.texts.len();
        let first = kind as usize * texts;
        self.structs.joined(first, first + texts)
    }

    /// The instances of a kind of structure in a text.
    pub fn structs_in(&self, kind: u16, text: u32) -> &[StructSpan]
        requires kind { kind < length self.now.structs }
        requires text { text < length self.now.texts }
        ensures { result.now ≡ slice_index_or (slice_index_or self.now.structs kind []) text [] }
    {
        self.structs
            .get(kind as usize * self.texts.len() + text as usize)
    }
}

/// Where a text begins: where the one before it ends.
fn begin_of(ends: &[u32], i: usize) -> u32
    requires { i ≤ length ends.now }
    ensures { result ≡ slice_index (0 ∷ ends.now) i }
{
    if i == 0 { 0 } else { ends[i - 1] }
}
