//! A segment put together of its tables: those of a text of one token, with one instance around it.

ghost use Rattle.std.specs.Prelude.{◌≡◌, [], ◌∷◌, codes, IfOk};
ghost use Rattle.mt_tables.specs.Small.{small_registry, small_span, small_tables};

use mt_base::{Attr, Kind, List, NoMemory, Registry, Strings, StructSpan, Value};
use mt_lexicon::Lexicon;
use mt_postings::Postings;
use mt_segment::{Column, Lists, Segment};
use std::alloc::Global;

/// The registry of the text.
pub fn registry(alloc: Global) -> Result<Registry, NoMemory>
    ensures { IfOk result (λ registry. registry ≡ small_registry) }
{
    let mut attrs = List::new(alloc);
    let word = Value::new(alloc, "word")?;
    attrs.push(Attr::new(word, None, Value::new(alloc, "")?))?;
    let mut kinds = List::new(alloc);
    kinds.push(Kind::new(Value::new(alloc, "s")?, List::new(alloc)))?;
    Ok(Registry::new(attrs, kinds, 0))
}

/// The segment of the text.
pub fn joined(alloc: Global, registry: &Registry) -> Result<Segment, NoMemory>
    requires { registry.now ≡ small_registry }
    ensures { IfOk result (λ segment. segment ≡ small_tables) }
{
    let mut texts = List::new(alloc);
    texts.push((Value::new(alloc, "a")?, 1))?;
    let lexicons = lexicons(alloc)?;
    let columns = columns(alloc)?;
    let postings = postings(alloc)?;
    let structs = instances(alloc)?;
    Segment::of_tables(
        alloc,
        registry,
        texts,
        lexicons,
        columns,
        List::new(alloc),
        postings,
        structs,
    )
}

/// The lexicon of the attribute.
fn lexicons(alloc: Global) -> Result<List<Lexicon>, NoMemory>
    ensures { IfOk result (λ lexicons. lexicons ≡ (codes "x" ∷ []) ∷ []) }
{
    let mut values = Strings::new(alloc);
    values.push("x")?;
    let mut lexicons = List::new(alloc);
    match Lexicon::of_ascending(values) {
        Some(lexicon) => lexicons.push(lexicon)?,
        None => return Err(NoMemory),
    }
    Ok(lexicons)
}

/// The column of the attribute.
fn columns(alloc: Global) -> Result<List<Column>, NoMemory>
    ensures { IfOk result (λ columns. columns ≡ (0 ∷ []) ∷ []) }
{
    let mut numbers = List::new(alloc);
    numbers.push(0)?;
    let mut columns = List::new(alloc);
    columns.push(Column::new(numbers))?;
    Ok(columns)
}

/// The posting lists of the attribute.
fn postings(alloc: Global) -> Result<List<List<Postings>>, NoMemory>
    ensures { IfOk result (λ postings. postings ≡ ((0 ∷ []) ∷ []) ∷ []) }
{
    let mut lists = List::new(alloc);
    lists.push(Postings::from_slice(alloc, &[0])?)?;
    let mut postings = List::new(alloc);
    postings.push(lists)?;
    Ok(postings)
}

/// The instances of the kind in the text.
fn instances(alloc: Global) -> Result<Lists<StructSpan>, NoMemory>
    ensures { IfOk result (λ instances. instances ≡ (small_span ∷ []) ∷ []) }
{
    let mut instances = Lists::with_capacity(alloc, 1, 1)?;
    instances.begin()?;
    instances.push(StructSpan::new(0, 0, 1, List::new(alloc)))?;
    Ok(instances)
}
