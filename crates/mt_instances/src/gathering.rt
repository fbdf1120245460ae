//! The instances that the rows of a text give.

ghost use Rattle.std.specs.Prelude.{◌≡◌, ℕ, List as Items, [], ◌<◌, length, slice_get, Some, MatchOption, IfOk, OnOk};
ghost use Rattle.mt_text_spec.specs.Registries as registries;
ghost use Rattle.mt_text_spec.specs.Texts as texts;
ghost use Rattle.mt_text_spec.specs.Queries as queries;
ghost use Rattle.mt_match_spec.specs.Values.{Images};
ghost use Rattle.mt_count_spec.specs.Instances.{Gives, IsFilled};
ghost use Rattle.mt_counts.specs.Names.{Begins};
ghost use Rattle.mt_counts.specs.Tables.{text_at};
ghost use Rattle.mt_instances.specs.Gains.{Gains, GivenBy, HasLabels, LabelsLie};
ghost use Rattle.mt_instances.specs.Given.{OfFilled};
ghost use Rattle.mt_instances.specs.Gathered.{AreGathered, IsHeading, IsText, value_in};

use crate::fills::{Fills, filled};
use crate::giving::{add_both, add_one, add_pair, place_of};
use crate::instances::Instances;
use crate::words::Words;
use mt_base::{NoMemory, Row};
use mt_grammar::{Relation, RelationKind};
use mt_rows::RowList;

/// A relation by the numbers of its names. The second is that of the first, where there is no second name.
#[derive(Clone, Copy, Drop)]
pub(crate) struct Heading {
    kind: RelationKind,
    name: u32,
    second: u32,
}

/// The instances that rows have given, and what is known of names that were filled.
#[derive(Drop)]
pub(crate) struct Gathered {
    pub(crate) instances: Instances,
    pub(crate) fills: Fills,
}

impl Gathered {
    /// Takes away what is known of the text, and keeps the memory, and the names with their numbers.
    pub(crate) fn clear(&mut self)
        ensures names { self.new.instances.names ≡ self.old.instances.names }
        ensures given { self.new.instances.given ≡ [] }
        ensures fills { self.new.fills ≡ [] }
    {
        self.instances.clear();
        self.fills.clear();
    }
}

/// Adds the instances that rows of a query of the relation give. Where there are no rows, its names get no numbers.
pub(crate) fn add_rows(
    words: &Words,
    gathered: &mut Gathered,
    relation: &Relation,
    rows: &RowList,
) -> Result<(), NoMemory>
    requires labels { LabelsLie rows.now (length words.now.numbers.now) }
    requires gathered { AreGathered words.now.lexicon.now words.now.numbers.now gathered.old }
    ensures gathered { AreGathered words.now.lexicon.now words.now.numbers.now gathered.new }
    ensures names { Begins gathered.old.instances.names gathered.new.instances.names }
    ensures given { OnOk result ((images : Images) (registry : registries.Registry) (text : texts.Text) → IsText images registry text words.now.lexicon.now words.now.numbers.now
        → Gains gathered.old.instances.given gathered.new.instances.given (GivenBy images registry text relation.now rows.now)) }
{
    if rows.is_empty() {
        return Ok(());
    }
    gathered.instances.make_room(words.numbers.len())?;
    let heading = heading_of(words, gathered, relation)?;
    add_each(words, gathered, heading, rows)
}

/// Adds the instances that rows give under a heading.
fn add_each(
    words: &Words,
    gathered: &mut Gathered,
    heading: Heading,
    rows: &RowList,
) -> Result<(), NoMemory>
    requires name { heading.name < length gathered.old.instances.names }
    requires second { heading.second < length gathered.old.instances.names }
    requires labels { LabelsLie rows.now (length words.now.numbers.now) }
    requires gathered { AreGathered words.now.lexicon.now words.now.numbers.now gathered.old }
    ensures gathered { AreGathered words.now.lexicon.now words.now.numbers.now gathered.new }
    ensures names { Begins gathered.old.instances.names gathered.new.instances.names }
    ensures given { OnOk result ((relation : queries.Relation) (images : Images) (registry : registries.Registry) (text : texts.Text)
        → IsHeading gathered.old.instances.names relation heading → IsText images registry text words.now.lexicon.now words.now.numbers.now
        → Gains gathered.old.instances.given gathered.new.instances.given (GivenBy images registry text relation rows.now)) }
{
    for k in 0..rows.len() {
        add_row(words, gathered, heading, &rows.get(k))?;
    }
    Ok(())
}

/// The numbers of a relation's names.
fn heading_of(
    words: &Words,
    gathered: &mut Gathered,
    relation: &Relation,
) -> Result<Heading, NoMemory>
    requires { AreGathered words.now.lexicon.now words.now.numbers.now gathered.old }
    ensures gathered { AreGathered words.now.lexicon.now words.now.numbers.now gathered.new }
    ensures names { Begins gathered.old.instances.names gathered.new.instances.names }
    ensures given { gathered.new.instances.given ≡ gathered.old.instances.given }
    ensures heading { IfOk result (λ heading. IsHeading gathered.new.instances.names relation.now heading) }
{
    let kind = relation.kind();
    let name = gathered.instances.add_name(words.alloc, relation.name())?;
    let second = match kind {
        RelationKind::Dual => gathered.instances.add_name(words.alloc, relation.second())?,
        _ => name,
    };
    Ok(Heading { kind, name, second })
}

/// Adds the instances that a row gives.
fn add_row(
    words: &Words,
    gathered: &mut Gathered,
    heading: Heading,
    row: &Row,
) -> Result<(), NoMemory>
    requires name { heading.name < length gathered.old.instances.names }
    requires second { heading.second < length gathered.old.instances.names }
    requires labels { HasLabels row.now (length words.now.numbers.now) }
    requires gathered { AreGathered words.now.lexicon.now words.now.numbers.now gathered.old }
    ensures gathered { AreGathered words.now.lexicon.now words.now.numbers.now gathered.new }
    ensures names { Begins gathered.old.instances.names gathered.new.instances.names }
    ensures given { OnOk result ((relation : queries.Relation) (images : Images) (registry : registries.Registry) (text : texts.Text)
        → IsHeading gathered.old.instances.names relation heading → IsText images registry text words.now.lexicon.now words.now.numbers.now
        → Gains gathered.old.instances.given gathered.new.instances.given (Gives images registry text relation row.now relation.kind)) }
{
    let Heading { kind, name, second } = heading;
    match kind {
        RelationKind::Plain => add_pair(&mut gathered.instances, name, row),
        RelationKind::Dual => add_both(&mut gathered.instances, name, second, row),
        RelationKind::Symmetric => add_both(&mut gathered.instances, name, name, row),
        RelationKind::Trinary => add_filled(words, gathered, name, row),
        RelationKind::Unary => add_one(&mut gathered.instances, name, row),
    }
}

/// Adds the instance that a row gives under the name that is filled with the value at label 3.
fn add_filled(words: &Words, gathered: &mut Gathered, name: u32, row: &Row) -> Result<(), NoMemory>
    requires name { name < length gathered.old.instances.names }
    requires labels { HasLabels row.now (length words.now.numbers.now) }
    requires gathered { AreGathered words.now.lexicon.now words.now.numbers.now gathered.old }
    ensures gathered { AreGathered words.now.lexicon.now words.now.numbers.now gathered.new }
    ensures names { Begins gathered.old.instances.names gathered.new.instances.names }
    ensures given { OnOk result (Gains gathered.old.instances.given gathered.new.instances.given
        (OfFilled (text_at gathered.old.instances.names name) (value_in words.now.lexicon.now words.now.numbers.now) row.now)) }
{
    match place_of(row, 2) {
        Some(third) => match filled_name(words, gathered, name, words.number(third))? {
            Some(number) => add_pair(&mut gathered.instances, number, row),
            None => Ok(()),
        },
        None => Ok(()),
    }
}

/// The number of the name that is filled with a value, where it has a place for one.
fn filled_name(
    words: &Words,
    gathered: &mut Gathered,
    name: u32,
    value: u32,
) -> Result<Option<u32>, NoMemory>
    requires name { name < length gathered.old.instances.names }
    requires value { value < length words.now.lexicon.now }
    requires gathered { AreGathered words.now.lexicon.now words.now.numbers.now gathered.old }
    ensures gathered { AreGathered words.now.lexicon.now words.now.numbers.now gathered.new }
    ensures names { Begins gathered.old.instances.names gathered.new.instances.names }
    ensures given { gathered.new.instances.given ≡ gathered.old.instances.given }
    ensures filled { IfOk result (λ filled. MatchOption filled ((other : Items ℕ) → ¬ IsFilled (text_at gathered.old.instances.names name) (text_at words.now.lexicon.now value) other)
        (λ number. (own : Items ℕ) × (slice_get gathered.new.instances.names number ≡ Some own) × IsFilled (text_at gathered.old.instances.names name) (text_at words.now.lexicon.now value) own)) }
{
    match gathered.fills.get(name, value) {
        Some(number) => Ok(Some(number)),
        None => fill_name(words, gathered, name, value),
    }
}

/// The same of a name that is not known yet.
fn fill_name(
    words: &Words,
    gathered: &mut Gathered,
    name: u32,
    value: u32,
) -> Result<Option<u32>, NoMemory>
    requires name { name < length gathered.old.instances.names }
    requires value { value < length words.now.lexicon.now }
    requires gathered { AreGathered words.now.lexicon.now words.now.numbers.now gathered.old }
    ensures gathered { AreGathered words.now.lexicon.now words.now.numbers.now gathered.new }
    ensures names { Begins gathered.old.instances.names gathered.new.instances.names }
    ensures given { gathered.new.instances.given ≡ gathered.old.instances.given }
    ensures filled { IfOk result (λ filled. MatchOption filled ((other : Items ℕ) → ¬ IsFilled (text_at gathered.old.instances.names name) (text_at words.now.lexicon.now value) other)
        (λ number. (own : Items ℕ) × (slice_get gathered.new.instances.names number ≡ Some own) × IsFilled (text_at gathered.old.instances.names name) (text_at words.now.lexicon.now value) own)) }
{
    let text = gathered.instances.name(name).as_str();
    match filled(words.alloc, text, words.value(value))? {
        Some(full) => {
            let number = gathered.instances.add_name(words.alloc, &full)?;
            gathered.fills.set(name, value, number)?;
            Ok(Some(number))
        }
        None => Ok(None),
    }
}
