//! Removing texts.

ghost use Rattle.std.specs.Prelude.{◌≡◌, ◌==◌, ◌<◌, [], length, not, slice_set, slice_index_or, IfOk, IfSome, IfNone, OnOk, OnErr};
ghost use Rattle.std.specs.List.{Any, filter};
ghost use Rattle.mt_corpus_spec.specs.Groups.{HoldsName, corpus_of, without};
ghost use Rattle.mt_corpus.specs.Named.{IsTextAt, SplitsAt};

use super::corpus::Corpus;
use super::error::NoSuchText;
use mt_base::{List, Value};
use mt_decode_laws::{images_are_decoded, numbers_are_live, texts_are_decoded};
use mt_segment::Segment;
use std::alloc::Global;

/// Takes a number out.
fn drop_number(numbers: &mut Vec<u32>, number: u32)
    ensures { numbers.new.items ≡ filter (λ each. not (each == number)) numbers.old.items }
{
    numbers.retain(|each| *each != number);
}

/// Takes a number out of a list. It takes no memory.
fn drop_in(alloc: Global, list: &mut List<u32>, number: u32)
    ensures { list.new ≡ filter (λ each. not (each == number)) list.old }
{
    let mut numbers = std::mem::replace(list, List::new(alloc)).into_vec();
    drop_number(&mut numbers, number);
    *list = List::from_vec(numbers);
}

/// Takes a number out of the list at a place.
fn drop_at(alloc: Global, lists: &mut [List<u32>], place: usize, number: u32)
    requires { place < length lists.old }
    ensures { lists.new ≡ slice_set lists.old place (filter (λ each. not (each == number)) (slice_index_or lists.old place [])) }
{
    drop_in(alloc, &mut lists[place], number);
}

/// Takes a number out of one of the lists. It takes no memory.
fn drop_live(alloc: Global, live: &mut List<List<u32>>, place: usize, number: u32)
    requires { place < length live.old }
    ensures { live.new ≡ slice_set live.old place (filter (λ each. not (each == number)) (slice_index_or live.old place [])) }
{
    let mut all = std::mem::replace(live, List::new(alloc)).into_vec();
    drop_at(alloc, all.as_mut_slice(), place, number);
    *live = List::from_vec(all);
}

impl Corpus {
    /// Where the text of this name stands: its segment, and its number there.
    pub fn find(&self, name: &Value) -> Option<(&Segment, u32)>
        ensures found { IfSome result (λ place. IsTextAt self.now name.now place.0.now place.1) }
        ensures none { IfNone result (¬ HoldsName self.now.groups name.now) }
    {
        texts_are_decoded();
        numbers_are_live();
        images_are_decoded();
        match self.places.get(name) {
            None => None,
            Some(place) => {
                let (segment, text) = *place;
                Some((self.segments.get(segment as usize), text))
            }
        }
    }

    /// Removes the text of this name, and says how many tokens it has. Its segment keeps it. It takes no memory.
    pub fn remove(&mut self, name: &Value) -> Result<u32, NoSuchText>
        ensures ok { OnOk result (self.new ≡ record self.old { groups = without name.now self.old.groups }) }
        ensures split { OnOk result (SplitsAt self.old.groups name.now) }
        ensures tokens { IfOk result (λ tokens. Any (λ text. (text.name ≡ name.now) × (length text.tokens ≡ tokens)) (corpus_of self.old.groups)) }
        ensures none { OnErr result (¬ HoldsName self.old.groups name.now) }
        ensures err { OnErr result (self.new ≡ self.old) }
    {
        texts_are_decoded();
        numbers_are_live();
        match self.places.get(name) {
            None => Err(NoSuchText),
            Some(place) => {
                let (segment, text) = *place;
                let (begin, end) = self.segments.get(segment as usize).text_bounds(text);
                self.places.remove(name);
                drop_live(self.alloc, &mut self.live, segment as usize, text);
                Ok(end - begin)
            }
        }
    }
}
