//! The segment.

ghost use Rattle.std.specs.Prelude.{◌≡◌, ◌<◌, ◌≤◌, ◌∷◌, [], None, length, map, List as Items, ℕ, IfOk, IfSome, IsTrue};
ghost use Rattle.std.specs.List.{All};
ghost use Rattle.std.specs.Str.Lines.{lines};
ghost use Rattle.std.specs.Thread.{IsSync};
ghost use Rattle.mt_text_spec.specs.Registries.{ValidRegistry};
ghost use Rattle.mt_text_spec.specs.Texts.{Text, ValidText};
ghost use Rattle.mt_text_spec.specs.Words.{IsName};
ghost use Rattle.mt_file_spec.specs.Vertical.{Vertical, text_lines};
ghost use Rattle.mt_segment_spec.specs.Tables.{AreTables, AreTablesOf};
ghost use Rattle.mt_segment.specs.Joined.{of_one_text};
ghost use Rattle.mt_vertical_tables.specs.Columns.{AreColumns};
ghost use Rattle.mt_vertical_tables.specs.Joined.{AreTablesOfVertical};
ghost use Rattle.mt_vertical_tables.specs.Outlines.{IsOutline};

use super::columns::{all_columns, text_of};
use super::few::row_columns;
use super::outline::{Outline, instances, text_outline};
use super::unmade::Unmade;
use mt_base::{Attr, NoMemory, Registry, Value};
use mt_segment::{AttrTables, Segment};
use mt_vertical::{read_borrowed, valid_texts};
use rayon::{current_num_threads, join};
use std::alloc::Global;
use std::thread::Threads;

/// Of so many bytes and fewer the values are sorted sooner than they are numbered as they are seen.
const FEW: usize = 1 << 10;

/// So many bytes take far longer to read than starting threads does.
const MANY: usize = 1 << 18;

/// With fewer threads the lines are gone over by one thread sooner than once for each column.
const FEWEST_THREADS: usize = 3;

/// The segment of the text of this name that the bytes are read as, made without the text: that of a large one by several threads, that of a small one by one. None
/// where that is not the way for these bytes: they are neither many nor few, the machine has few threads for many, an attribute is mapped, or a line has a cause to
/// refuse the text. Nothing more is said of the bytes then, and the reader of texts decides.
pub fn read_tables<R: Threads + Sync>(
    rt: &R,
    alloc: Global,
    registry: &Registry,
    name: &Value,
    bytes: &[u8],
) -> Result<Option<Segment>, NoMemory>
    requires registry { ValidRegistry registry.now }
    requires name { IsName name.now }
    ensures { IfOk result (λ found. IfSome found (λ segment. (text : Text) × Vertical registry.now name.now bytes.now text × ValidText registry.now text ×
        ((images : Items ℕ → Items ℕ → Items ℕ) → AreTablesOf images registry.now (text ∷ []) segment))) }
{
    if !are_all_base(registry.attrs().as_slice()) {
        return Ok(None);
    }
    match make_segment(rt, alloc, registry, name, bytes) {
        Ok(segment) => Ok(Some(segment)),
        Err(Unmade::Refused) => Ok(None),
        Err(Unmade::NoMemory) => Err(NoMemory),
    }
}

/// The same, in the way that so many bytes are read sooner.
fn make_segment<R: Threads + Sync>(
    rt: &R,
    alloc: Global,
    registry: &Registry,
    name: &Value,
    bytes: &[u8],
) -> Result<Segment, Unmade>
    requires registry { ValidRegistry registry.now }
    requires name { IsName name.now }
    requires bases { All (λ attr. attr.base ≡ None) registry.now.attrs }
    ensures { IfOk result (λ segment. AreTablesOfVertical registry.now name.now bytes.now segment) }
{
    if bytes.len() <= FEW {
        return read_few(alloc, registry, name, bytes);
    }
    if bytes.len() < MANY || current_num_threads(rt) < FEWEST_THREADS {
        return Err(Unmade::Refused);
    }
    read_segment(rt, alloc, registry, name, bytes)
}

/// Whether none of these attributes is mapped.
fn are_all_base(attrs: &[Attr]) -> bool
    ensures { IsTrue result → All (λ attr. attr.base ≡ None) attrs.now }
{
    for attr in attrs {
        if !attr.is_base() {
            return false;
        }
    }
    true
}

/// The segment of the text of this name that the bytes are read as.
fn read_segment<R: Threads + Sync>(
    rt: &R,
    alloc: Global,
    registry: &Registry,
    name: &Value,
    bytes: &[u8],
) -> Result<Segment, Unmade>
    requires registry { ValidRegistry registry.now }
    requires name { IsName name.now }
    requires bases { All (λ attr. attr.base ≡ None) registry.now.attrs }
    ensures { IfOk result (λ segment. AreTablesOfVertical registry.now name.now bytes.now segment) }
{
    valid_texts();
    let text = text_of(bytes)?;
    let (outline, columns) = read_parts(rt, alloc, registry, text)?;
    let segment = of_columns(alloc, name, outline, columns)?;
    Ok(segment)
}

/// What the tables of a text are made of, read side by side.
fn read_parts<R: Threads + Sync>(
    rt: &R,
    alloc: Global,
    registry: &Registry,
    text: &str,
) -> Result<(Outline, Vec<AttrTables>), Unmade>
    requires registry { ValidRegistry registry.now }
    ensures outline { IfOk result (λ parts. (name bytes : Items ℕ) → text_lines bytes ≡ lines text.now → IsOutline registry.now name bytes parts.0.tokens parts.0.structs) }
    ensures columns { IfOk result (λ parts. AreColumns (lines text.now) (length registry.now.attrs) parts.1.items) }
{
    let count = registry.attrs().len();
    let outline = move || -> Result<Outline, Unmade>
        requires { ValidRegistry registry.now }
        ensures { IfOk result (λ outline. (name bytes : Items ℕ) → text_lines bytes ≡ lines text.entry.now → IsOutline registry.entry.now name bytes outline.tokens outline.structs) }
    { text_outline(alloc, registry, text) };
    let columns = move || -> Result<Vec<AttrTables>, Unmade>
        requires { IsSync R.row }
        ensures { IfOk result (λ tables. AreColumns (lines text.entry.now) count tables.items) }
    { all_columns(rt, alloc, text, count) };
    let (outline, columns) = join(rt, outline, columns);
    let outline = outline?;
    let columns = columns?;
    Ok((outline, columns))
}

/// The segment of the text of this name that the bytes are read as, where they are few.
fn read_few(
    alloc: Global,
    registry: &Registry,
    name: &Value,
    bytes: &[u8],
) -> Result<Segment, Unmade>
    requires registry { ValidRegistry registry.now }
    requires name { IsName name.now }
    requires bases { All (λ attr. attr.base ≡ None) registry.now.attrs }
    ensures { IfOk result (λ segment. AreTablesOfVertical registry.now name.now bytes.now segment) }
{
    valid_texts();
    let lines = text_of(bytes)?;
    let text = read_borrowed(alloc, lines, registry)?;
    let columns = row_columns(alloc, &text.rows, registry.attrs().len())?;
    let kinds = registry.kinds().len() as u16;
    let structs = instances(alloc, text.structs.as_slice(), kinds)?;
    let outline = Outline {
        tokens: text.rows.len() as u32,
        structs,
    };
    let segment = of_columns(alloc, name, outline, columns)?;
    Ok(segment)
}

/// The segment of a text of this name with this outline and these tables of its columns.
fn of_columns(
    alloc: Global,
    name: &Value,
    outline: Outline,
    columns: Vec<AttrTables>,
) -> Result<Segment, NoMemory>
    requires { AreTables (of_one_text name.now outline.tokens columns.items outline.structs) }
    ensures { IfOk result (λ segment. segment ≡ of_one_text name.now outline.tokens columns.items outline.structs) }
{
    Segment::of_text(
        alloc,
        name.copy(alloc)?,
        outline.tokens,
        columns,
        outline.structs,
    )
}
