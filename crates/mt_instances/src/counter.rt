//! Counting instances by the values at their places.

ghost use Rattle.std.specs.Prelude.{◌≡◌, [], ◌<◌, length, map, slice_get, Some, IfOk, IfSome, OnOk};
ghost use Rattle.std.specs.List.{All, AllZip};
ghost use Rattle.mt_counts.specs.Tables.{text_at};
ghost use Rattle.mt_instances.specs.Counting.{AddsEach, AreReady};
ghost use Rattle.mt_instances.specs.Entries.{instance_of};
ghost use Rattle.mt_instances.specs.Gains.{LiesIn};
ghost use Rattle.mt_instances.specs.Gathered.{value_in};
ghost use Rattle.mt_instances.specs.Numbered.{GoTogether, IsEntryIn, IsNumbered, IsWord, Learns};

use crate::entry::Entry;
use crate::instances::Instances;
use crate::numbers::Numbers;
use crate::words::Words;
use mt_base::NoMemory;
use mt_counts::Noted;
use std::alloc::Global;

/// What is noted, and what numbers that has for the names of instances and for the values of a lexicon.
#[derive(Drop)]
pub(crate) struct Counter {
    pub(crate) names: Numbers,
    pub(crate) words: Numbers,
    pub(crate) noted: Noted,
}

impl Counter {
    /// Nothing is counted. It takes no memory.
    pub(crate) fn new(alloc: Global) -> Self
        ensures names { result.names ≡ [] }
        ensures words { result.words ≡ [] }
        ensures counted { result.noted.counted ≡ record { both = []; first = []; second = []; alone = [] } }
    {
        Counter {
            names: Numbers::new(alloc),
            words: Numbers::new(alloc),
            noted: Noted::new(alloc),
        }
    }

    /// Takes all away, and keeps the memory for others.
    pub(crate) fn clear(&mut self)
        ensures names { self.new.names ≡ [] }
        ensures words { self.new.words ≡ [] }
        ensures noted { self.new.noted ≡ record { names = []; words = []; counted = record { both = []; first = []; second = []; alone = [] } } }
    {
        self.names.clear();
        self.words.clear();
        self.noted.clear();
    }
}

/// Counts each instance once more, and takes all of them away.
pub(crate) fn count_all(
    words: &Words,
    instances: &mut Instances,
    counter: &mut Counter,
) -> Result<(), NoMemory>
    requires valued { All (λ number. number < length words.now.lexicon.now) words.now.numbers.now }
    requires lie { All (LiesIn (length words.now.numbers.now)) instances.old.given }
    requires ready { AreReady instances.old.names words.now.lexicon.now counter.old }
    ensures names { instances.new.names ≡ instances.old.names }
    ensures given { instances.new.given ≡ [] }
    ensures ready { AreReady instances.new.names words.now.lexicon.now counter.new }
    ensures ok { OnOk result (AddsEach (value_in words.now.lexicon.now words.now.numbers.now) instances.old.given counter.old.noted.counted counter.new.noted.counted) }
{
    let entries = instances.take(words.alloc);
    let room = count(words, instances, counter, entries)?;
    instances.give_room(room);
    Ok(())
}

/// Counts the instance of each entry once more. Returns a list for whoever wants its memory.
fn count(
    words: &Words,
    instances: &Instances,
    counter: &mut Counter,
    entries: Vec<Entry>,
) -> Result<Vec<Entry>, NoMemory>
    requires valued { All (λ number. number < length words.now.lexicon.now) words.now.numbers.now }
    requires entries { All (IsEntryIn instances.now.names (length words.now.numbers.now)) entries.items }
    requires ready { AreReady instances.now.names words.now.lexicon.now counter.old }
    ensures ready { AreReady instances.now.names words.now.lexicon.now counter.new }
    ensures ok { OnOk result (AddsEach (value_in words.now.lexicon.now words.now.numbers.now) (map (instance_of instances.now.names) entries.items) counter.old.noted.counted counter.new.noted.counted) }
{
    let mut notes = entries;
    number_all(words, instances, counter, notes.as_mut_slice())?;
    counter.noted.put(notes)
}

/// Puts in the place of each entry's numbers those that its name and the values at its places have where they are noted.
fn number_all(
    words: &Words,
    instances: &Instances,
    counter: &mut Counter,
    entries: &mut [Entry],
) -> Result<(), NoMemory>
    requires valued { All (λ number. number < length words.now.lexicon.now) words.now.numbers.now }
    requires entries { All (IsEntryIn instances.now.names (length words.now.numbers.now)) entries.old }
    requires ready { AreReady instances.now.names words.now.lexicon.now counter.old }
    ensures ready { AreReady instances.now.names words.now.lexicon.now counter.new }
    ensures learns { Learns counter.old.noted counter.new.noted }
    ensures numbered { OnOk result (AllZip (IsNumbered counter.new.noted instances.now.names (value_in words.now.lexicon.now words.now.numbers.now)) entries.old entries.new) }
{
    for k in 0..entries.len() {
        let note = numbered(words, instances, counter, entries[k])?;
        entries[k] = note;
    }
    Ok(())
}

/// The numbers that an entry's name and the values at its places have in the counts.
fn numbered(
    words: &Words,
    instances: &Instances,
    counter: &mut Counter,
    entry: Entry,
) -> Result<Entry, NoMemory>
    requires valued { All (λ number. number < length words.now.lexicon.now) words.now.numbers.now }
    requires entry { IsEntryIn instances.now.names (length words.now.numbers.now) entry }
    requires ready { AreReady instances.now.names words.now.lexicon.now counter.old }
    ensures ready { AreReady instances.now.names words.now.lexicon.now counter.new }
    ensures learns { Learns counter.old.noted counter.new.noted }
    ensures numbered { IfOk result (λ note. IsNumbered counter.new.noted instances.now.names (value_in words.now.lexicon.now words.now.numbers.now) entry note) }
{
    let name = name_of(words, instances, counter, entry.name)?;
    let first = word_at(words, instances, counter, entry.first)?;
    let second = second_at(words, instances, counter, entry.second)?;
    Ok(Entry {
        name,
        first,
        second,
    })
}

/// The number that a name has in the counts, by its number among the names of instances.
fn name_of(
    words: &Words,
    instances: &Instances,
    counter: &mut Counter,
    number: u32,
) -> Result<u32, NoMemory>
    requires number { number < length instances.now.names }
    requires ready { AreReady instances.now.names words.now.lexicon.now counter.old }
    ensures ready { AreReady instances.now.names words.now.lexicon.now counter.new }
    ensures learns { Learns counter.old.noted counter.new.noted }
    ensures name { IfOk result (λ there. slice_get counter.new.noted.names there ≡ Some (text_at instances.now.names number)) }
{
    if let Some(there) = counter.names.get(number) {
        return Ok(there);
    }
    let there = counter.noted.name(instances.name(number).as_str())?;
    counter.names.set(number, there)?;
    Ok(there)
}

/// The number that the value at a place has in the counts.
fn word_at(
    words: &Words,
    instances: &Instances,
    counter: &mut Counter,
    place: u32,
) -> Result<u32, NoMemory>
    requires place { place < length words.now.numbers.now }
    requires valued { All (λ number. number < length words.now.lexicon.now) words.now.numbers.now }
    requires ready { AreReady instances.now.names words.now.lexicon.now counter.old }
    ensures ready { AreReady instances.now.names words.now.lexicon.now counter.new }
    ensures learns { Learns counter.old.noted counter.new.noted }
    ensures word { IfOk result (λ there. IsWord counter.new.noted (value_in words.now.lexicon.now words.now.numbers.now) place there) }
{
    let number = words.number(place);
    if let Some(there) = counter.words.get(number) {
        return Ok(there);
    }
    let there = counter.noted.word(words.value(number))?;
    counter.words.set(number, there)?;
    Ok(there)
}

/// The number that the value at a second place has in the counts, where there is one.
fn second_at(
    words: &Words,
    instances: &Instances,
    counter: &mut Counter,
    place: Option<u32>,
) -> Result<Option<u32>, NoMemory>
    requires place { IfSome place (λ place. place < length words.now.numbers.now) }
    requires valued { All (λ number. number < length words.now.lexicon.now) words.now.numbers.now }
    requires ready { AreReady instances.now.names words.now.lexicon.now counter.old }
    ensures ready { AreReady instances.now.names words.now.lexicon.now counter.new }
    ensures learns { Learns counter.old.noted counter.new.noted }
    ensures word { IfOk result (λ there. GoTogether (IsWord counter.new.noted (value_in words.now.lexicon.now words.now.numbers.now)) place there) }
{
    match place {
        Some(place) => {
            let there = word_at(words, instances, counter, place)?;
            Ok(Some(there))
        }
        None => Ok(None),
    }
}
