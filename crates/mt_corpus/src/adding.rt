//! Adding texts.

ghost use Rattle.std.specs.Cmp.Lexicographic.{pointwise};
ghost use Rattle.std.specs.HashMap.{get};
ghost use Rattle.std.specs.Prelude.{nat_eq, if◌then◌else◌, Some, ◌≡◌, ℕ, ◌+◌, ◌<◌, ◌≤◌, ◌↔◌, ◌⊎◌, [], ◌∷◌, ◌++◌, List as Items, length, map, OnOk, OnErr, IfOk, IsErrOf};
ghost use Rattle.mt_text_spec.specs.Texts as spec;
ghost use Rattle.mt_text_spec.specs.Texts.{ValidText};
ghost use Rattle.mt_segment_spec.specs.Tables.{AreTablesOf, Tables};
ghost use Rattle.mt_segment.specs.Mappers.{AreCalled, AreThere, calls_due, image_by, named};
ghost use Rattle.mt_corpus_spec.specs.Groups.{HoldsName, IsFull, alone};
ghost use Rattle.mt_corpus_spec.specs.Images.{AreImagesBy};
ghost use Rattle.mt_corpus_spec.specs.Decoded.{images_in};
ghost use Rattle.mt_corpus.specs.Held.{IsMadeOf};
ghost use Rattle.mt_corpus.specs.Added.{MayBeKept, SomeMayBeKept};
ghost use Rattle.mt_corpus.specs.Keeping.{AgreeWith};

use super::corpus::Corpus;
use super::error::AddError;
use mt_base::{List, NoMemory, Text, Value};
use mt_decode_laws::{images_are_decoded, numbers_are_live, texts_are_decoded};
use mt_mapper::Mapper;
use mt_segment::Segment;
use std::alloc::Global;
use std::collections::HashMap;
use std::thread::Threads;

/// The number of the one text of a segment.
fn first_alone(alloc: Global) -> Result<List<u32>, NoMemory>
    ensures { IfOk result (λ live. live ≡ 0 ∷ []) }
{
    let mut live = List::with_capacity(alloc, 1)?;
    live.push(0)?;
    Ok(live)
}

/// Adds a segment, the numbers of its live texts, and the name of its first text. Without memory nothing changes.
fn push_text(
    segments: &mut List<Segment>,
    live: &mut List<List<u32>>,
    places: &mut HashMap<Value, (u32, u32)>,
    segment: Segment,
    numbers: List<u32>,
    name: Value,
) -> Result<(), NoMemory>
    requires few { length segments.old ≤ 65536 }
    requires both { length live.old ≡ length segments.old }
    ensures segments { OnOk result (segments.new ≡ segments.old ++ segment ∷ []) }
    ensures live { OnOk result (live.new ≡ live.old ++ numbers ∷ []) }
    ensures places { OnOk result ((q : Items ℕ) → get (pointwise nat_eq) places.new q ≡ (if pointwise nat_eq name q then Some (length segments.old, 0) else get (pointwise nat_eq) places.old q)) }
    ensures same_segments { OnErr result (segments.new ≡ segments.old) }
    ensures same_live { OnErr result (live.new ≡ live.old) }
    ensures same_places { OnErr result ((q : Items ℕ) → get (pointwise nat_eq) places.new q ≡ get (pointwise nat_eq) places.old q) }
{
    let count = segments.len();
    segments.push(segment)?;
    match live.push(numbers) {
        Err(_) => {
            segments.truncate(count);
            Err(NoMemory)
        }
        Ok(()) => match places.insert(name, (count as u32, 0)) {
            Ok(_) => Ok(()),
            Err(_) => {
                segments.truncate(count);
                live.truncate(count);
                Err(NoMemory)
            }
        },
    }
}

impl Corpus {
    /// Adds a text behind the others, as a segment of its own. After an error the corpus is as it was, but the mappers may have been called: each at most as often
    /// as for an accepted text, which is once for each distinct value of the base of each attribute that is mapped by it.
    pub fn add<M: Mapper, R: Threads + Sync>(
        &mut self,
        rt: &R,
        text: Text,
        mappers: &mut [M],
    ) -> Result<(), AddError>
        requires text { ValidText self.old.registry text }
        requires mappers { AreThere (map M.called mappers.old) self.old.registry.attrs }
        ensures ok { OnOk result (self.new.groups ≡ self.old.groups ++ alone text ∷ []) }
        ensures registry { self.new.registry ≡ self.old.registry }
        ensures taken { (images : Items ℕ → Items ℕ → Items ℕ) → AgreeWith images (named M.called M.image mappers.old) self.old.registry → AreImagesBy images self.old.taken → AreImagesBy images self.new.taken }
        ensures err { OnErr result (self.new ≡ self.old) }
        ensures name_taken { IsErrOf result AddError.NameTaken ↔ HoldsName self.old.groups text.name }
        ensures full { IsErrOf result AddError.CorpusFull → IsFull self.old.groups (length text.tokens) }
        ensures room { ¬ HoldsName self.old.groups text.name → IsFull self.old.groups (length text.tokens) → IsErrOf result AddError.CorpusFull }
        ensures same { named M.called M.image mappers.new ≡ named M.called M.image mappers.old }
        ensures uncalled { IsErrOf result AddError.NameTaken ⊎ IsErrOf result AddError.CorpusFull → map M.calls mappers.new ≡ map M.calls mappers.old }
        ensures calls { (t : Tables) → AreTablesOf (image_by (named M.called M.image mappers.old)) self.old.registry (text ∷ []) t → AreCalled (calls_due (map M.called mappers.old) t.attrs self.old.registry.attrs) (map M.calls mappers.old) (map M.calls mappers.new) result }
    {
        if self.holds(text.name()) {
            return Err(AddError::NameTaken);
        }
        if self.is_full(text.len()) {
            return Err(AddError::CorpusFull);
        }
        match self.add_free(rt, text, mappers) {
            Ok(()) => Ok(()),
            Err(NoMemory) => Err(AddError::NoMemory),
        }
    }

    /// Adds a text whose name is free and for which there is room.
    fn add_free<M: Mapper, R: Threads + Sync>(
        &mut self,
        rt: &R,
        text: Text,
        mappers: &mut [M],
    ) -> Result<(), NoMemory>
        requires text { ValidText self.old.registry text }
        requires mappers { AreThere (map M.called mappers.old) self.old.registry.attrs }
        requires free { ¬ HoldsName self.old.groups text.name }
        requires room { ¬ IsFull self.old.groups (length text.tokens) }
        ensures ok { OnOk result (self.new.groups ≡ self.old.groups ++ alone text ∷ []) }
        ensures registry { self.new.registry ≡ self.old.registry }
        ensures taken { (images : Items ℕ → Items ℕ → Items ℕ) → AgreeWith images (named M.called M.image mappers.old) self.old.registry → AreImagesBy images self.old.taken → AreImagesBy images self.new.taken }
        ensures err { OnErr result (self.new ≡ self.old) }
        ensures same { named M.called M.image mappers.new ≡ named M.called M.image mappers.old }
        ensures calls { (t : Tables) → AreTablesOf (image_by (named M.called M.image mappers.old)) self.old.registry (text ∷ []) t → AreCalled (calls_due (map M.called mappers.old) t.attrs self.old.registry.attrs) (map M.calls mappers.old) (map M.calls mappers.new) result }
    {
        let segment = self.build(rt, text, mappers)?;
        self.keep(segment)
    }

    /// Builds the segment of a text, which may then be kept. The text itself is let go. Each mapper is called once for each distinct value of the base of each attribute
    /// that is mapped by it, and no more often where memory runs out half-way.
    pub fn build<M: Mapper, R: Threads + Sync>(
        &self,
        rt: &R,
        text: Text,
        mappers: &mut [M],
    ) -> Result<Segment, NoMemory>
        requires text { ValidText self.now.registry text }
        requires mappers { AreThere (map M.called mappers.old) self.now.registry.attrs }
        ensures made { IfOk result (IsMadeOf self.now.registry text) }
        ensures images { (images : Items ℕ → Items ℕ → Items ℕ) → AgreeWith images (named M.called M.image mappers.old) self.now.registry → IfOk result (λ segment. AreImagesBy images (images_in self.now.registry segment)) }
        ensures same { named M.called M.image mappers.new ≡ named M.called M.image mappers.old }
        ensures calls { (t : Tables) → AreTablesOf (image_by (named M.called M.image mappers.old)) self.now.registry (text ∷ []) t → AreCalled (calls_due (map M.called mappers.old) t.attrs self.now.registry.attrs) (map M.calls mappers.old) (map M.calls mappers.new) result }
    {
        images_are_decoded();
        let texts = [text];
        Segment::build(rt, self.alloc, &texts, &self.registry, mappers)
    }

    /// Keeps the segment of a text behind the others. Without memory nothing changes, and the segment is let go.
    pub fn keep(&mut self, segment: Segment) -> Result<(), NoMemory>
        requires { SomeMayBeKept self.old segment }
        ensures ok { (text : spec.Text) → MayBeKept self.old text segment → OnOk result (self.new.groups ≡ self.old.groups ++ alone text ∷ []) }
        ensures registry { self.new.registry ≡ self.old.registry }
        ensures taken { OnOk result (self.new.taken ≡ self.old.taken ++ images_in self.old.registry segment) }
        ensures err { OnErr result (self.new ≡ self.old) }
    {
        texts_are_decoded();
        numbers_are_live();
        let tokens = segment.tokens() as usize;
        let name = Value::new(self.alloc, segment.text_name(0))?;
        let live = first_alone(self.alloc)?;
        push_text(
            &mut self.segments,
            &mut self.live,
            &mut self.places,
            segment,
            live,
            name,
        )?;
        self.texts += 1;
        self.tokens += tokens;
        Ok(())
    }
}
