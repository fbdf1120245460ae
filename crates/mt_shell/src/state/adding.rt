//! `text` and `add`.

ghost use Rattle.std.specs.Prelude.{◌≡◌, ℕ, List, length, IfOk, IfErr, IfSome, OnOk, OnErr, IsErrOf};
ghost use Rattle.mt_shelf_spec.specs.Files.{Files};
ghost use Rattle.mt_file_spec.specs.Vertical.{Vertical};
ghost use Rattle.mt_text_spec.specs.Words.{IsName};
ghost use Rattle.mt_text_spec.specs.Texts as texts;
ghost use Rattle.mt_text_spec.specs.Texts.{ValidText};
ghost use Rattle.mt_corpus_spec.specs.Images.{AreImagesBy};
ghost use Rattle.mt_corpus_spec.specs.Decoded.{images_in};
ghost use Rattle.mt_corpus.specs.Added.{MayBeKept, SomeMayBeKept};
ghost use Rattle.mt_segment.specs.Mappers.{named};
ghost use Rattle.mt_script_spec.specs.Commands as spec;
ghost use Rattle.mt_session_spec.specs.World.{Holds, with_text};
ghost use Rattle.mt_session_spec.specs.Settings.{Setting, images_of};
ghost use Rattle.mt_shell.specs.Fetches.{Finds, gained_of};
ghost use Rattle.mt_shell.specs.Outsides.{beside};
ghost use Rattle.mt_shell.specs.Serves.{Serves};
ghost use Rattle.mt_shell.specs.Holding.{corpus_in};
ghost use Rattle.mt_shell.specs.Answers.{Answers, AnswersAlone, Stepped, IsRich, KeepsText, ReadsText, over};
ghost use Rattle.mt_shell.specs.Segments.{IsSegmentOf};

use super::super::edge::Edge;
use super::super::fetch::{Fetched, fetch};
use super::State;
use mt_answer::{Refusal, Reply, count_line, failed, refused};
use mt_base::{NoMemory, Text, Value};
use mt_decode_laws::images_are_decoded;
use mt_grammar_counts::CountError;
use mt_mapper::Mapper;
use mt_pattern::PatternShop;
use mt_segment::Segment;
use mt_session_laws::held_is_valid;
use mt_vertical::{TextError, no_text_with_fault, one_text, read_text};
use mt_vertical_tables::read_tables;
use std::thread::Threads;

impl<P: PatternShop> State<P> {
    /// `text`: holds the text that the body is, unless its name is taken.
    pub fn add_text<M: Mapper, R: Threads + Sync>(
        &mut self,
        rt: &R,
        name: &Value,
        body: &[u8],
        mappers: &mut Vec<M>,
        shop: &mut P,
    ) -> Reply
        ghost setting: { Setting }
        requires named { IsName name.now }
        requires serves { Serves setting (named M.called M.image mappers.old.items) self.old }
        ensures means { AnswersAlone setting self.old.held (spec.Text name.now body.now) result self.new.held }
        ensures serves { Serves setting (named M.called M.image mappers.new.items) self.new }
        ensures shop { P.refused shop.new ≡ P.refused shop.old }
    {
        one_text();
        no_text_with_fault();
        if self.holds(name) {
            return refused(self.alloc, &Refusal::NameTaken(name.as_str()));
        }
        self.read_text(rt, name, body, mappers, shop)
    }

    /// `add`: holds the text that the file is, unless its name is taken.
    pub fn add_file<M: Mapper, R: Threads + Sync, E: Edge>(
        &mut self,
        rt: &R,
        name: &Value,
        file: &Value,
        mappers: &mut Vec<M>,
        edge: &mut E,
        shop: &mut P,
    ) -> Reply
        ghost setting: { Setting }
        requires named { IsName name.now }
        requires serves { Serves setting (named M.called M.image mappers.old.items) self.old }
        ensures means { (refused : List (List ℕ)) → Stepped setting self.old.held (spec.Add name.now file.now) result self.new.held (beside (E.seen edge.old) refused) (beside (E.seen edge.new) refused) }
        ensures serves { Serves setting (named M.called M.image mappers.new.items) self.new }
        ensures shop { P.refused shop.new ≡ P.refused shop.old }
        ensures names { E.names edge.new ≡ E.names edge.old }
    {
        if self.holds(name) {
            return refused(self.alloc, &Refusal::NameTaken(name.as_str()));
        }
        let fetched = fetch(self.alloc, file.as_str(), edge);
        self.take_file(rt, name, file, fetched, mappers, shop)
    }

    /// Does with the file what was found of it.
    fn take_file<M: Mapper, R: Threads + Sync>(
        &mut self,
        rt: &R,
        name: &Value,
        file: &Value,
        fetched: Fetched,
        mappers: &mut Vec<M>,
        shop: &mut P,
    ) -> Reply
        ghost setting: { Setting }
        requires named { IsName name.now }
        requires free { Holds self.old.held name.now → ⊥ }
        requires serves { Serves setting (named M.called M.image mappers.old.items) self.old }
        ensures means { (files : Files) → Finds files file.now fetched →
            Answers setting (over self.old.held files) (spec.Add name.now file.now) (gained_of file.now fetched) result (over self.new.held files) }
        ensures serves { Serves setting (named M.called M.image mappers.new.items) self.new }
        ensures shop { P.refused shop.new ≡ P.refused shop.old }
    {
        one_text();
        no_text_with_fault();
        let alloc = self.alloc;
        match fetched {
            Fetched::Whole(bytes) => self.read_bytes(rt, name, bytes, mappers, shop),
            Fetched::Absent => refused(alloc, &Refusal::NoSuchFile(file.as_str())),
            Fetched::TooLong => refused(alloc, &Refusal::FileTooLong(file.as_str())),
            Fetched::Failed => failed(alloc, file),
            Fetched::NoMemory => Reply::NoMemory,
        }
    }

    /// Reads the text that these bytes are, and keeps it.
    pub(super) fn read_text<M: Mapper, R: Threads + Sync>(
        &mut self,
        rt: &R,
        name: &Value,
        bytes: &[u8],
        mappers: &mut Vec<M>,
        shop: &mut P,
    ) -> Reply
        ghost setting: { Setting }
        requires named { IsName name.now }
        requires free { Holds self.old.held name.now → ⊥ }
        requires serves { Serves setting (named M.called M.image mappers.old.items) self.old }
        ensures means { ReadsText setting self.old.held name.now bytes.now result self.new.held }
        ensures serves { Serves setting (named M.called M.image mappers.new.items) self.new }
        ensures shop { P.refused shop.new ≡ P.refused shop.old }
    {
        match self.segment_of(rt, name, bytes) {
            Ok(Some(segment)) => self.keep_read(rt, segment, shop),
            Ok(None) => match self.text_of(name, bytes) {
                Ok(text) => self.keep_text(rt, text, mappers, shop),
                Err(reply) => reply,
            },
            Err(NoMemory) => Reply::NoMemory,
        }
    }

    /// Reads the text that the bytes of a file are, and keeps it. The bytes are let go before, so they take no room beside the text's segment.
    fn read_bytes<M: Mapper, R: Threads + Sync>(
        &mut self,
        rt: &R,
        name: &Value,
        bytes: mt_base::List<u8>,
        mappers: &mut Vec<M>,
        shop: &mut P,
    ) -> Reply
        ghost setting: { Setting }
        requires named { IsName name.now }
        requires free { Holds self.old.held name.now → ⊥ }
        requires serves { Serves setting (named M.called M.image mappers.old.items) self.old }
        ensures means { ReadsText setting self.old.held name.now bytes result self.new.held }
        ensures serves { Serves setting (named M.called M.image mappers.new.items) self.new }
        ensures shop { P.refused shop.new ≡ P.refused shop.old }
    {
        match self.segment_of(rt, name, bytes.as_slice()) {
            Ok(Some(segment)) => {
                drop(bytes);
                self.keep_read(rt, segment, shop)
            }
            Ok(None) => match self.text_in(name, bytes) {
                Ok(text) => self.keep_text(rt, text, mappers, shop),
                Err(reply) => reply,
            },
            Err(NoMemory) => Reply::NoMemory,
        }
    }

    /// The segment of the text of this name that these bytes are, if it can be made without the text.
    fn segment_of<R: Threads + Sync>(
        &self,
        rt: &R,
        name: &Value,
        bytes: &[u8],
    ) -> Result<Option<Segment>, NoMemory>
        requires { IsName name.now }
        ensures { IfOk result (λ found. IfSome found (λ segment. IsSegmentOf self.now.held.registry name.now bytes.now segment)) }
    {
        read_tables(rt, self.alloc, self.corpus.registry(), name, bytes)
    }

    /// Keeps the segment of a text whose name is free, if there is room for it.
    fn keep_read<R: Threads + Sync>(&mut self, rt: &R, segment: Segment, shop: &mut P) -> Reply
        ghost setting: { Setting }
        requires read { (name : List ℕ) × (bytes : List ℕ) × (Holds self.old.held name → ⊥) × IsSegmentOf self.old.held.registry name bytes segment }
        requires taken { AreImagesBy (images_of setting) self.old.taken }
        ensures means { (name bytes : List ℕ) → (Holds self.old.held name → ⊥) → IsSegmentOf self.old.held.registry name bytes segment → ReadsText setting self.old.held name bytes result self.new.held }
        ensures serves { (mappers : List (List ℕ × (List ℕ → List ℕ))) → Serves setting mappers self.old → Serves setting mappers self.new }
        ensures shop { P.refused shop.new ≡ P.refused shop.old }
    {
        images_are_decoded();
        let tokens = segment.tokens() as usize;
        if self.corpus.is_full(tokens) {
            return refused(self.alloc, &Refusal::CorpusFull);
        }
        self.keep_made(rt, tokens, segment, shop)
    }

    /// The text of this name that the bytes of a file are, or the reply where they are none. The bytes are let go, so they take no room beside the text's segment.
    fn text_in(&self, name: &Value, bytes: mt_base::List<u8>) -> Result<Text, Reply>
        requires { IsName name.now }
        ensures text { IfOk result (λ text. Vertical self.now.held.registry name.now bytes text) }
        ensures valid { IfOk result (λ text. ValidText self.now.held.registry text) }
        ensures reply { (setting : Setting) → IfErr result (λ reply. ReadsText setting self.now.held name.now bytes reply self.now.held) }
    {
        self.text_of(name, bytes.as_slice())
    }

    /// The text of this name that these bytes are, or the reply where they are none.
    fn text_of(&self, name: &Value, bytes: &[u8]) -> Result<Text, Reply>
        requires { IsName name.now }
        ensures text { IfOk result (λ text. Vertical self.now.held.registry name.now bytes.now text) }
        ensures valid { IfOk result (λ text. ValidText self.now.held.registry text) }
        ensures reply { (setting : Setting) → IfErr result (λ reply. ReadsText setting self.now.held name.now bytes.now reply self.now.held) }
    {
        let Ok(own_name) = name.copy(self.alloc) else {
            return Err(Reply::NoMemory);
        };
        match read_text(self.alloc, own_name, bytes, self.corpus.registry()) {
            Ok(text) => Ok(text),
            Err(TextError::Bad(line)) => Err(refused(self.alloc, &Refusal::BadVertical(line))),
            Err(TextError::NoMemory) => Err(Reply::NoMemory),
        }
    }

    /// Keeps a text behind the others, where there is room. The reply is made first.
    fn keep_text<M: Mapper, R: Threads + Sync>(
        &mut self,
        rt: &R,
        text: Text,
        mappers: &mut Vec<M>,
        shop: &mut P,
    ) -> Reply
        ghost setting: { Setting }
        requires free { Holds self.old.held text.name → ⊥ }
        requires valid { ValidText self.old.held.registry text }
        requires serves { Serves setting (named M.called M.image mappers.old.items) self.old }
        ensures means { KeepsText setting self.old.held text result self.new.held }
        ensures serves { Serves setting (named M.called M.image mappers.new.items) self.new }
        ensures shop { P.refused shop.new ≡ P.refused shop.old }
    {
        let tokens = text.len();
        if self.corpus.is_full(tokens) {
            return refused(self.alloc, &Refusal::CorpusFull);
        }
        let Ok(segment) = self.corpus.build(rt, text, mappers) else {
            return Reply::NoMemory;
        };
        self.keep_made(rt, tokens, segment, shop)
    }

    /// Keeps the segment of a text of so many tokens for which there is room, and tells of it.
    pub(super) fn keep_made<R: Threads + Sync>(
        &mut self,
        rt: &R,
        tokens: usize,
        segment: Segment,
        shop: &mut P,
    ) -> Reply
        ghost setting: { Setting }
        requires may { SomeMayBeKept (corpus_in self.old) segment }
        requires images { AreImagesBy (images_of setting) (images_in self.old.held.registry segment) }
        requires taken { AreImagesBy (images_of setting) self.old.taken }
        ensures means { (text : texts.Text) → MayBeKept (corpus_in self.old) text segment → tokens ≡ length text.tokens → KeepsText setting self.old.held text result self.new.held }
        ensures serves { (mappers : List (List ℕ × (List ℕ → List ℕ))) → Serves setting mappers self.old → Serves setting mappers self.new }
        ensures shop { P.refused shop.new ≡ P.refused shop.old }
    {
        let Ok(line) = count_line(self.alloc, "ok", tokens as u128) else {
            return Reply::NoMemory;
        };
        match self.keep_segment(rt, segment, shop) {
            Ok(()) => Reply::Lines(line),
            Err(CountError::TooManyRows) => refused(self.alloc, &Refusal::TooManyRows),
            Err(CountError::NoMemory) => Reply::NoMemory,
        }
    }

    /// Keeps the segment of a text for which there is room, counted where a grammar is held.
    fn keep_segment<R: Threads + Sync>(
        &mut self,
        rt: &R,
        segment: Segment,
        shop: &mut P,
    ) -> Result<(), CountError>
        ghost setting: { Setting }
        requires may { SomeMayBeKept (corpus_in self.old) segment }
        requires images { AreImagesBy (images_of setting) (images_in self.old.held.registry segment) }
        requires taken { AreImagesBy (images_of setting) self.old.taken }
        ensures ok { (text : texts.Text) → MayBeKept (corpus_in self.old) text segment → OnOk result (self.new.held ≡ with_text self.old.held text) }
        ensures poor { (text : texts.Text) → MayBeKept (corpus_in self.old) text segment → OnOk result (IsRich setting self.old.held text → ⊥) }
        ensures rich { (text : texts.Text) → MayBeKept (corpus_in self.old) text segment → IsErrOf result CountError.TooManyRows → IsRich setting self.old.held text }
        ensures err { OnErr result (self.new.held ≡ self.old.held) }
        ensures serves { (mappers : List (List ℕ × (List ℕ → List ℕ))) → Serves setting mappers self.old → Serves setting mappers self.new }
        ensures shop { P.refused shop.new ≡ P.refused shop.old }
    {
        held_is_valid();
        match &mut self.rules {
            Some(rules) => rules.keep(rt, self.alloc, &mut self.corpus, segment, shop),
            None => Ok(self.corpus.keep(segment)?),
        }
    }
}
