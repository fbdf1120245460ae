//! `grammar` and `rules`.

ghost use Rattle.std.specs.Prelude.{◌≡◌, ℕ, List};
ghost use Rattle.mt_corpus_spec.specs.Images.{AreImagesBy};
ghost use Rattle.mt_script_spec.specs.Commands as spec;
ghost use Rattle.mt_session_spec.specs.Settings.{Setting, images_of};
ghost use Rattle.mt_shell.specs.Outsides.{beside};
ghost use Rattle.mt_shell.specs.Serves.{Serves};
ghost use Rattle.mt_shell.specs.Answers.{AnswersBeside, Stepped};
ghost use Rattle.mt_rules.specs.Ruled.{AreOver};
ghost use Rattle.mt_rules.specs.Reading.{ReadsRules};
ghost use Rattle.mt_shell.specs.Holding.{corpus_in};
ghost use Rattle.mt_shell.specs.Ruling.{TakesGrammar};

use super::super::edge::Edge;
use super::super::fetch::{Fetched, fetch};
use super::State;
use mt_answer::{Refusal, Reply, count_line, failed, refused};
use mt_base::Value;
use mt_pattern::PatternShop;
use mt_rules::{Rules, hold, let_go};
use mt_session_laws::held_is_valid;
use std::thread::Threads;

impl<P: PatternShop> State<P> {
    /// `rules`: the grammar that the body is holds from now on, in place of any before.
    pub fn set_rules<R: Threads + Sync>(&mut self, rt: &R, body: &[u8], shop: &mut P) -> Reply
        ghost setting: { Setting }
        requires { AreImagesBy (images_of setting) self.old.taken }
        ensures means { AnswersBeside setting self.old.held (spec.Rules body.now) result self.new.held (P.refused shop.old) (P.refused shop.new) }
        ensures serves { (mappers : List (List ℕ × (List ℕ → List ℕ))) → Serves setting mappers self.old → Serves setting mappers self.new }
    {
        self.read_rules(rt, body, shop)
    }

    /// `grammar`: the grammar of the file holds from now on, in place of any before.
    pub fn set_grammar<R: Threads + Sync, E: Edge>(
        &mut self,
        rt: &R,
        file: &Value,
        edge: &mut E,
        shop: &mut P,
    ) -> Reply
        ghost setting: { Setting }
        requires { AreImagesBy (images_of setting) self.old.taken }
        ensures means { Stepped setting self.old.held (spec.Grammar file.now) result self.new.held (beside (E.seen edge.old) (P.refused shop.old)) (beside (E.seen edge.new) (P.refused shop.new)) }
        ensures serves { (mappers : List (List ℕ × (List ℕ → List ℕ))) → Serves setting mappers self.old → Serves setting mappers self.new }
        ensures names { E.names edge.new ≡ E.names edge.old }
    {
        let fetched = fetch(self.alloc, file.as_str(), edge);
        self.take_grammar(rt, file, fetched, shop)
    }

    /// Does with the file what was found of it.
    fn take_grammar<R: Threads + Sync>(
        &mut self,
        rt: &R,
        file: &Value,
        fetched: Fetched,
        shop: &mut P,
    ) -> Reply
        ghost setting: { Setting }
        requires { AreImagesBy (images_of setting) self.old.taken }
        ensures means { TakesGrammar setting self.old.held file.now fetched result self.new.held (P.refused shop.old) (P.refused shop.new) }
        ensures serves { (mappers : List (List ℕ × (List ℕ → List ℕ))) → Serves setting mappers self.old → Serves setting mappers self.new }
    {
        let alloc = self.alloc;
        match fetched {
            Fetched::Whole(bytes) => self.read_rules(rt, bytes.as_slice(), shop),
            Fetched::Absent => refused(alloc, &Refusal::NoSuchFile(file.as_str())),
            Fetched::TooLong => refused(alloc, &Refusal::FileTooLong(file.as_str())),
            Fetched::Failed => failed(alloc, file),
            Fetched::NoMemory => Reply::NoMemory,
        }
    }

    /// Holds the grammar that these bytes are, unless a check stands.
    fn read_rules<R: Threads + Sync>(&mut self, rt: &R, bytes: &[u8], shop: &mut P) -> Reply
        ghost setting: { Setting }
        requires { AreImagesBy (images_of setting) self.old.taken }
        ensures means { AnswersBeside setting self.old.held (spec.Rules bytes.now) result self.new.held (P.refused shop.old) (P.refused shop.new) }
        ensures serves { (mappers : List (List ℕ × (List ℕ → List ℕ))) → Serves setting mappers self.old → Serves setting mappers self.new }
    {
        match Rules::<P>::read(rt, self.alloc, &self.corpus, bytes, shop) {
            Ok(rules) => self.keep_rules(rules),
            Err(declined) => declined.reply(self.alloc),
        }
    }

    /// Holds these rules in place of those before. The reply is made first.
    fn keep_rules(&mut self, rules: Rules<P>) -> Reply
        ghost setting: { Setting }
        requires over { AreOver (corpus_in self.old) rules }
        requires taken { AreImagesBy (images_of setting) self.old.taken }
        ensures means { (bytes : List ℕ) (refused : List (List ℕ)) → ReadsRules (corpus_in self.old) bytes rules → AnswersBeside setting self.old.held (spec.Rules bytes) result self.new.held refused refused }
        ensures serves { (mappers : List (List ℕ × (List ℕ → List ℕ))) → Serves setting mappers self.old → Serves setting mappers self.new }
    {
        held_is_valid();
        let Ok(line) = count_line(self.alloc, "ok", rules.relation_count()) else {
            let_go(rules);
            return Reply::NoMemory;
        };
        hold(&mut self.rules, rules);
        Reply::Lines(line)
    }
}
