//! What is kept while a grammar is read, line by line.

ghost use Rattle.std.specs.Prelude.{◌≡◌, ◌+◌, ◌<◌, ◌^◌, [], None, Some, List as Items, ℕ, option_map, length, is_some, true, Ok, IfOk, IfErr, OnOk};
ghost use Rattle.mt_text_spec.specs.Queries as seen;
ghost use Rattle.mt_text_spec.specs.Registries.{ValidRegistry};
ghost use Rattle.mt_query_spec.specs.Verdicts.{Means};
ghost use Rattle.mt_grammar_spec.specs.GrammarLines.{Directs, Heads, Asks};
ghost use Rattle.mt_grammar_spec.specs.GrammarFile.{kind_waiting};
ghost use Rattle.mt_grammar_spec.specs.ReadGrammar.{limited as the_limited};
ghost use Rattle.mt_grammar.specs.Errors.{RefusesLine, RefusesForm, RefusesText, IsUnended, line_cause_seen};
ghost use Rattle.mt_grammar.specs.Reading as reading;
ghost use Rattle.mt_grammar.specs.Reading.{at_first, kind_of, relations_in, next_line, IsSound, HasTaken, HasDone, with_query};
ghost use Rattle.mt_grammar.specs.Seen.{kind_seen};
ghost use Rattle.mt_grammar.specs.SeenLine.{directive_seen, line_seen};

use super::error::{GrammarError, LineCause};
use super::grammar::{Grammar, Relation};
use super::heading::{Names, names_of};
use super::kind::RelationKind;
use super::labels::lacks_label;
use super::limit::limited;
use super::line::{Directive, Line, is_skipped, line_of, trimmed};
use super::names::{find_attr, find_kind};
use mt_base::{List, NoMemory, Registry, Value};
use mt_cql::{Query, QueryError, parse};
use mt_query_laws::one_meaning;
use std::alloc::Global;
use std::marker::Model;
use std::str;

/// The most headings of a file.
const HEADINGS_LIMIT: usize = 256;

/// The most queries of a file.
const QUERIES_LIMIT: usize = 1024;

/// How many lines have been read, what is in force behind them, and the relations that they give. To the last relation queries are added.
#[derive(Drop)]
pub struct Reader {
    number: usize,
    pending: Option<RelationKind>,
    default: u16,
    limit: Option<u16>,
    queries: usize,
    done: List<Relation>,
    last: Option<Relation>,
}

impl Model for Reader {
    ghost use Rattle.std.specs.Prelude.{option_map as mapped};
    ghost use Rattle.mt_grammar.specs.Codes.{state_code};
    ghost use Rattle.mt_grammar.specs.Reading.{State};
    ghost use Rattle.mt_grammar.specs.Seen.{kind_seen as seen};

    ghost Value = { State };

    ghost coded = { state_code };

    ghost view = { λ r. record { number = r.number; pending = mapped seen r.pending; default = r.default; limit = r.limit; queries = r.queries; done = r.done; last = r.last } };
}

impl Reader {
    /// Before any line.
    pub fn new(alloc: Global) -> Self
        ensures { result ≡ at_first }
    {
        Reader {
            number: 0,
            pending: None,
            default: 0,
            limit: None,
            queries: 0,
            done: List::new(alloc),
            last: None,
        }
    }

    /// Reads the next line. One that has a cause is refused for the first of its causes.
    pub fn read_line(
        &mut self,
        alloc: Global,
        registry: &Registry,
        line: &[u8],
    ) -> Result<(), GrammarError>
        requires valid { ValidRegistry registry.now }
        requires sound { IsSound registry.now self.old }
        requires few { self.old.number + 1 < 2 ^ 64 }
        ensures ok { OnOk result (HasTaken registry.now self.old line.now self.new) }
        ensures err { IfErr result (λ error. RefusesLine registry.now (next_line self.old line.now) error) }
    {
        self.number += 1;
        let bare = trimmed(line);
        if is_skipped(bare) {
            return Ok(());
        }
        match str::from_utf8(bare) {
            Ok(bare) => self.read_bare(alloc, registry, line_of(bare)),
            Err(_) => Err(self.refused(LineCause::NotUtf8)),
        }
    }

    /// Reads a line that is UTF-8 and not skipped.
    fn read_bare(
        &mut self,
        alloc: Global,
        registry: &Registry,
        line: Line,
    ) -> Result<(), GrammarError>
        requires valid { ValidRegistry registry.now }
        requires sound { IsSound registry.now self.old }
        ensures ok { OnOk result (HasDone registry.now self.old (line_seen line.entry) self.new) }
        ensures err { IfErr result (λ error. RefusesForm registry.now self.old (line_seen line.entry) error) }
    {
        match line {
            Line::Directive(directive) => self.direct(registry, directive),
            Line::Heading(heading) => self.begin(alloc, registry, heading),
            Line::Query(text) => self.ask(alloc, registry, text),
        }
    }

    /// The refusal of the line that is read.
    fn refused(&self, cause: LineCause) -> GrammarError
        ensures { result ≡ GrammarError.Line self.now.number cause }
    {
        GrammarError::Line {
            line: self.number,
            cause,
        }
    }

    /// Reads a directive.
    fn direct(&mut self, registry: &Registry, directive: Directive) -> Result<(), GrammarError>
        requires valid { ValidRegistry registry.now }
        requires sound { IsSound registry.now self.old }
        ensures ok { OnOk result (HasDone registry.now self.old (Directs (directive_seen directive.entry)) self.new) }
        ensures err { IfErr result (λ error. RefusesForm registry.now self.old (Directs (directive_seen directive.entry)) error) }
    {
        match directive {
            Directive::Kind(kind) => match self.pending {
                Some(_) => Err(self.refused(LineCause::Kind)),
                None => {
                    self.pending = Some(kind);
                    Ok(())
                }
            },
            Directive::DefaultAttr(name) => match find_attr(registry, name) {
                None => Err(self.refused(LineCause::Name)),
                Some(attr) => {
                    self.default = attr;
                    Ok(())
                }
            },
            Directive::StructLimit(name) => match find_kind(registry, name) {
                None => Err(self.refused(LineCause::Name)),
                Some(kind) => {
                    self.limit = Some(kind);
                    Ok(())
                }
            },
            Directive::Unknown => Err(self.refused(LineCause::Directive)),
        }
    }

    /// Begins the relation of a heading.
    fn begin(
        &mut self,
        alloc: Global,
        registry: &Registry,
        heading: &str,
    ) -> Result<(), GrammarError>
        requires { IsSound registry.now self.old }
        ensures ok { OnOk result (HasDone registry.now self.old (Heads heading.now) self.new) }
        ensures err { IfErr result (λ error. RefusesForm registry.now self.old (Heads heading.now) error) }
    {
        let kind = self.waiting();
        let Some(names) = names_of(kind, heading) else {
            return Err(self.refused(LineCause::Heading));
        };
        if self.headings() == HEADINGS_LIMIT {
            return Err(self.refused(LineCause::TooMany));
        }
        let relation = begun(alloc, kind, names)?;
        self.close()?;
        self.pending = None;
        self.last = Some(relation);
        Ok(())
    }

    /// The kind of the next heading.
    fn waiting(&self) -> RelationKind
        ensures { kind_seen result ≡ kind_waiting self.now.pending }
    {
        match self.pending {
            Some(kind) => kind,
            None => RelationKind::Plain,
        }
    }

    /// How many headings there are.
    fn headings(&self) -> usize
        requires { length (relations_in self.now) < 2 ^ 64 }
        ensures { result ≡ length (relations_in self.now) }
    {
        match &self.last {
            Some(_) => self.done.len() + 1,
            None => self.done.len(),
        }
    }

    /// Puts the last relation behind those whose last query is read.
    fn close(&mut self) -> Result<(), NoMemory>
        ensures { OnOk result (self.new ≡ record self.old { done = relations_in self.old; last = None }) }
    {
        match self.last.take() {
            Some(relation) => self.done.push(relation),
            None => Ok(()),
        }
    }

    /// Reads a query of the last relation.
    fn ask(&mut self, alloc: Global, registry: &Registry, text: &str) -> Result<(), GrammarError>
        requires valid { ValidRegistry registry.now }
        requires sound { IsSound registry.now self.old }
        ensures ok { OnOk result (HasDone registry.now self.old (Asks text.now) self.new) }
        ensures err { IfErr result (λ error. RefusesForm registry.now self.old (Asks text.now) error) }
    {
        one_meaning();
        let Some(kind) = self.under() else {
            return Err(self.refused(LineCause::NoHeading));
        };
        if self.queries == QUERIES_LIMIT {
            return Err(self.refused(LineCause::TooMany));
        }
        let query = self.parsed(alloc, registry, text)?;
        if lacks_label(kind, &query) {
            return Err(self.refused(LineCause::Label));
        }
        let query = limited(alloc, query, self.limit)?;
        self.add(query)?;
        Ok(())
    }

    /// The kind of the last heading.
    fn under(&self) -> Option<RelationKind>
        ensures { option_map kind_seen result ≡ kind_of self.now.last }
    {
        match &self.last {
            Some(relation) => Some(relation.kind()),
            None => None,
        }
    }

    /// The query of a text by itself.
    fn parsed(&self, alloc: Global, registry: &Registry, text: &str) -> Result<Query, GrammarError>
        requires { ValidRegistry registry.now }
        ensures ok { IfOk result (λ query. Means registry.now self.now.default text.now (Ok query)) }
        ensures err { IfErr result (λ error. RefusesText registry.now self.now text.now error) }
    {
        match parse(alloc, text, registry, self.default) {
            Ok(query) => Ok(query),
            Err(QueryError::NoMemory) => Err(GrammarError::NoMemory),
            Err(error) => Err(GrammarError::Query {
                line: self.number,
                error,
            }),
        }
    }

    /// Adds a query to the last relation.
    fn add(&mut self, query: Query) -> Result<(), NoMemory>
        requires { self.old.queries + 1 < 2 ^ 64 }
        ensures { OnOk result ((relation : seen.Relation) → self.old.last ≡ Some relation → self.new ≡ record self.old { queries = self.old.queries + 1; last = Some (with_query relation query) }) }
    {
        if let Some(relation) = &mut self.last {
            relation.add(query)?;
        }
        self.queries += 1;
        Ok(())
    }

    /// The grammar of all relations.
    pub fn finish(self) -> Result<Grammar, GrammarError>
        ensures all { IfOk result (λ grammar. grammar.relations ≡ relations_in self) }
        ensures some { IfOk result (λ grammar. is_some self.last ≡ true) }
        ensures err { IfErr result (λ error. IsUnended self error) }
    {
        let mut relations = self.done;
        match self.last {
            None => Err(GrammarError::NoRelation),
            Some(relation) => {
                relations.push(relation)?;
                Ok(Grammar::new(relations))
            }
        }
    }
}

/// The relation that a heading begins.
fn begun(alloc: Global, kind: RelationKind, names: Names) -> Result<Relation, NoMemory>
    ensures { IfOk result (λ relation. relation ≡ record { kind = kind_seen kind; name = names.entry.first.now; second = names.entry.second.now; queries = [] }) }
{
    let first = Value::new(alloc, names.first)?;
    let second = Value::new(alloc, names.second)?;
    Ok(Relation::new(kind, first, second, List::new(alloc)))
}
