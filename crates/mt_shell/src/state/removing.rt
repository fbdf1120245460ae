//! `remove`.

ghost use Rattle.std.specs.Prelude.{◌≡◌, ◌++◌, ◌≤◌, ℕ, [], List as Items, length, vec_capacity, codes, IfOk, OnOk, OnErr};
ghost use Rattle.std.specs.List.{Any};
ghost use Rattle.std.specs.Fmt.{decimal};
ghost use Rattle.mt_text_spec.specs.Lines.{closed};
ghost use Rattle.mt_script_spec.specs.Commands as spec;
ghost use Rattle.mt_corpus_spec.specs.Images.{AreImagesBy};
ghost use Rattle.mt_session_spec.specs.World.{Holds, corpus_of, without_text};
ghost use Rattle.mt_session_spec.specs.Settings.{Setting, images_of};
ghost use Rattle.mt_shell.specs.Serves.{Serves};
ghost use Rattle.mt_shell.specs.Answers.{AnswersAlone};

use super::State;
use itoa::Buffer;
use mt_answer::{Refusal, Reply, refused};
use mt_base::{List, NoMemory, Value};
use mt_pattern::PatternShop;
use mt_session_laws::held_is_valid;
use std::thread::Threads;

impl<P: PatternShop> State<P> {
    /// `remove`: the text of this name is no text of the corpus from now on. The memory of the reply is taken first.
    pub fn remove<R: Threads + Sync>(&mut self, rt: &R, name: &Value, shop: &mut P) -> Reply
        ghost setting: { Setting }
        requires { AreImagesBy (images_of setting) self.old.taken }
        ensures means { AnswersAlone setting self.old.held (spec.Remove name.now) result self.new.held }
        ensures serves { (mappers : Items (Items ℕ × (Items ℕ → Items ℕ))) → Serves setting mappers self.old → Serves setting mappers self.new }
        ensures shop { P.refused shop.new ≡ P.refused shop.old }
    {
        if !self.holds(name) {
            return refused(self.alloc, &Refusal::NoSuchText(name.as_str()));
        }
        let Ok(mut line) = Vec::with_capacity(self.alloc, LINE_BYTES) else {
            return Reply::NoMemory;
        };
        let Ok(tokens) = self.remove_counted(rt, name, shop) else {
            return Reply::NoMemory;
        };
        write_tokens(&mut line, tokens);
        Reply::Lines(List::from_vec(line))
    }

    /// Removes a text of the corpus, with what a grammar that is held counts in it, and says how many tokens it has.
    fn remove_counted<R: Threads + Sync>(
        &mut self,
        rt: &R,
        name: &Value,
        shop: &mut P,
    ) -> Result<u32, NoMemory>
        ghost setting: { Setting }
        requires name { Holds self.old.held name.now }
        requires taken { AreImagesBy (images_of setting) self.old.taken }
        ensures ok { OnOk result (self.new.held ≡ without_text self.old.held name.now) }
        ensures tokens { IfOk result (λ tokens. Any (λ text. (text.name ≡ name.now) × (length text.tokens ≡ tokens)) (corpus_of self.old.held.groups)) }
        ensures err { OnErr result (self.new.held ≡ self.old.held) }
        ensures taken { self.new.taken ≡ self.old.taken }
        ensures shop { P.refused shop.new ≡ P.refused shop.old }
    {
        held_is_valid();
        match &mut self.rules {
            Some(rules) => rules.remove(rt, self.alloc, &mut self.corpus, name, shop),
            None => match self.corpus.remove(name) {
                Ok(tokens) => Ok(tokens),
                Err(_) => unreachable!(),
            },
        }
    }
}

/// The bytes of `ok`, a number of at most ten digits, a space and a line feed.
const LINE_BYTES: usize = 14;

/// Writes the line of so many tokens into room that there is for it. It takes no memory.
fn write_tokens(line: &mut Vec<u8>, tokens: u32)
    requires none { line.old.items ≡ [] }
    requires room { LINE_BYTES ≤ vec_capacity line.old }
    ensures { line.new.items ≡ closed (codes "ok " ++ decimal tokens) }
{
    let mut buffer = Buffer::new();
    line.push_reserved(b'o');
    line.push_reserved(b'k');
    line.push_reserved(b' ');
    for digit in buffer.format(tokens).as_bytes() {
        line.push_reserved(*digit);
    }
    line.push_reserved(b'\n');
}
