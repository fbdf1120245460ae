//! The bytes of a script, of which the front was given out, and how far they were looked at.

ghost use Rattle.std.specs.Prelude.{◌≡◌, ℕ, ◌≤◌, ◌<◌, [], length, take, drop, Bool, true, false, IsSome, IfOk, OnOk, OnErr, None, ◌++◌};
ghost use Rattle.mt_script_spec.specs.Commands.{IsSkipped};
ghost use Rattle.mt_text_spec.specs.Lines.{IsLine, closed};
ghost use Rattle.std.specs.Str.Lines.{strip_carriage_return};
ghost use Rattle.mt_script.specs.Places.{NoFeed, LineAt};
ghost use Rattle.mt_script.specs.Scans.{wait, IsSound, FindsHeader, Gives, StarvesOr};

use super::header::{Header, read_header};
use super::lines::{is_skipped, line_end, without_return};
use super::{Command, Next};
use mt_base::NoMemory;
use std::alloc::Global;

/// Bytes of a script. All places but `start` are counted from `start`.
#[derive(Drop)]
pub struct Scan {
    /// Bytes that were fed.
    pub held: Vec<u8>,
    /// Where the first of those begins that were not given out.
    pub start: usize,
    /// Up to here no line feed is in the line that is looked at.
    pub scanned: usize,
    /// The header of the command that waits for its body.
    pub header: Option<Header>,
    /// Where that body begins.
    pub body: usize,
    /// Where the line begins that is looked at.
    pub line: usize,
    /// How many lines of the body are missing.
    pub missing: u32,
}

/// What stands in front.
#[derive(Clone, Copy, Debug, PartialEq, Eq, Drop)]
pub enum Found {
    /// A header, which is kept.
    Header,
    /// A line that is no command.
    Bad,
    /// No whole line.
    Partial,
}

impl Scan {
    pub fn new(alloc: Global) -> Self
        ensures empty { wait result ≡ [] }
        ensures sound { IsSound result }
    {
        Scan {
            held: Vec::new(alloc),
            start: 0,
            scanned: 0,
            header: None,
            body: 0,
            line: 0,
            missing: 0,
        }
    }

    /// The bytes that were not given out.
    fn waiting(&self) -> &[u8]
        requires { self.now.start ≤ length self.now.held.items }
        ensures { result.now ≡ wait self.now }
    {
        &self.held[self.start..]
    }

    /// Gives out the first bytes.
    fn give_out(&mut self, n: usize)
        requires start { self.old.start ≤ length self.old.held.items }
        requires within { n ≤ length (wait self.old) }
        ensures sound { IsSound self.new }
        ensures wait { wait self.new ≡ drop n (wait self.old) }
        ensures held { self.new.held ≡ self.old.held }
        ensures header { self.new.header ≡ None }
    {
        self.start += n;
        self.scanned = 0;
        self.header = None;
        self.line = 0;
    }

    /// Looks for a header behind lines that stand for nothing.
    fn next_header(&mut self, alloc: Global) -> Result<Found, NoMemory>
        requires sound { IsSound self.old }
        requires none { self.old.header ≡ None }
        ensures sound { IsSound self.new }
        ensures held { self.new.held ≡ self.old.held }
        ensures found { IfOk result (λ found. FindsHeader self.old found self.new) }
    {
        loop {
            let Some(end) = line_end(self.waiting(), 0, self.scanned) else {
                self.scanned = self.waiting().len();
                return Ok(Found::Partial);
            };
            let line = without_return(&self.waiting()[..end]);
            if !is_skipped(line) {
                return self.keep_header(alloc, end);
            }
            self.give_out(end + 1);
        }
    }

    /// Keeps the header of the first line, or gives the line out where it is none.
    fn keep_header(&mut self, alloc: Global, end: usize) -> Result<Found, NoMemory>
        requires sound { IsSound self.old }
        requires none { self.old.header ≡ None }
        requires line { LineAt (wait self.old) 0 end }
        requires stays { IsSkipped (strip_carriage_return (take end (wait self.old))) → ⊥ }
        ensures sound { IsSound self.new }
        ensures held { self.new.held ≡ self.old.held }
        ensures found { IfOk result (λ found. FindsHeader self.old found self.new) }
    {
        match read_header(alloc, without_return(&self.waiting()[..end]))? {
            None => {
                self.give_out(end + 1);
                Ok(Found::Bad)
            }
            Some(header) => {
                self.missing = header.lines();
                self.header = Some(header);
                self.body = end + 1;
                self.line = end + 1;
                self.scanned = end + 1;
                Ok(Found::Header)
            }
        }
    }

    /// Looks for the lines of the body. Whether all are there.
    fn find_body(&mut self) -> bool
        requires sound { IsSound self.old }
        requires some { IsSome self.old.header }
        ensures sound { IsSound self.new }
        ensures held { self.new.held ≡ self.old.held }
        ensures start { self.new.start ≡ self.old.start }
        ensures header { self.new.header ≡ self.old.header }
        ensures whole { result ≡ true → self.new.missing ≡ 0 }
        ensures part { result ≡ false → (0 < self.new.missing) × NoFeed (wait self.new) self.new.line (length (wait self.new)) }
    {
        while self.missing > 0 {
            let Some(end) = line_end(self.waiting(), self.line, self.scanned) else {
                self.scanned = self.waiting().len();
                return false;
            };
            self.line = end + 1;
            self.scanned = end + 1;
            self.missing -= 1;
        }
        true
    }

    /// The command whose body is all there.
    fn take_command(&mut self, alloc: Global) -> Next
        requires sound { IsSound self.old }
        requires some { IsSome self.old.header }
        requires whole { self.old.missing ≡ 0 }
        ensures sound { IsSound self.new }
        ensures held { self.new.held ≡ self.old.held }
        ensures gives { (ended : Bool) → Gives ended (wait self.old) result (wait self.new) }
    {
        match self.header.take() {
            None => unreachable!(),
            Some(header) => {
                let body = &self.waiting()[self.body..self.line];
                let Ok(command) = header.with_body(alloc, body) else {
                    self.give_out(0);
                    return Next::NoMemory;
                };
                let line = self.line;
                self.give_out(line);
                Next::Command(command)
            }
        }
    }

    /// What the rest is where the input ends and no header is open.
    fn take_last_line(&mut self, alloc: Global) -> Next
        requires sound { IsSound self.old }
        requires none { self.old.header ≡ None }
        requires line { IsLine (wait self.old) }
        ensures sound { IsSound self.new }
        ensures held { self.new.held ≡ self.old.held }
        ensures gives { Gives true (wait self.old) result (wait self.new) }
    {
        let line = self.waiting();
        if is_skipped(line) {
            self.give_out_all();
            return Next::End;
        }
        let Ok(header) = read_header(alloc, line) else {
            return Next::NoMemory;
        };
        let Some(header) = header else {
            self.give_out_all();
            return Next::Bad;
        };
        if header.lines() > 0 {
            self.give_out_all();
            return Next::CutShort;
        }
        let Ok(command) = header.with_body(alloc, &[]) else {
            return Next::NoMemory;
        };
        self.give_out_all();
        Next::Command(command)
    }

    /// What the rest is where the input ends and lines of a body are missing.
    fn take_last_body(&mut self, alloc: Global) -> Next
        requires sound { IsSound self.old }
        requires some { IsSome self.old.header }
        requires part { 0 < self.old.missing }
        requires none { NoFeed (wait self.old) self.old.line (length (wait self.old)) }
        ensures sound { IsSound self.new }
        ensures held { self.new.held ≡ self.old.held }
        ensures gives { Gives true (wait self.old) result (wait self.new) }
    {
        if self.missing > 1 || self.line == self.waiting().len() {
            self.give_out_all();
            return Next::CutShort;
        }
        match self.header.take() {
            None => unreachable!(),
            Some(header) => {
                let front = &self.waiting()[self.body..self.line];
                let last = &self.waiting()[self.line..];
                let Ok(command) = header.with_open_body(alloc, front, last) else {
                    self.give_out(0);
                    return Next::NoMemory;
                };
                self.give_out_all();
                Next::Command(command)
            }
        }
    }

    fn give_out_all(&mut self)
        requires { self.old.start ≤ length self.old.held.items }
        ensures sound { IsSound self.new }
        ensures wait { wait self.new ≡ [] }
        ensures held { self.new.held ≡ self.old.held }
    {
        let rest = self.held.len() - self.start;
        self.give_out(rest);
    }

    /// What comes next, where the input has ended or goes on. Without memory the bytes that wait are as before.
    pub fn next(&mut self, alloc: Global, ended: bool) -> Next
        requires sound { IsSound self.old }
        ensures sound { IsSound self.new }
        ensures gives { Gives ended (wait self.old) result (wait self.new) }
    {
        if self.header.is_some() {
            return self.finish(alloc, ended);
        }
        let start = self.start;
        let next = self.begin(alloc, ended);
        if matches!(next, Next::NoMemory) {
            self.go_back(start);
        }
        next
    }

    /// What comes next where no header is open. Without memory only what stands for nothing is given out.
    fn begin(&mut self, alloc: Global, ended: bool) -> Next
        requires sound { IsSound self.old }
        requires none { self.old.header ≡ None }
        ensures sound { IsSound self.new }
        ensures held { self.new.held ≡ self.old.held }
        ensures gives { StarvesOr (Gives ended (wait self.old) result (wait self.new)) result }
    {
        match self.next_header(alloc) {
            Err(NoMemory) => Next::NoMemory,
            Ok(Found::Bad) => Next::Bad,
            Ok(Found::Header) => self.finish(alloc, ended),
            Ok(Found::Partial) => {
                if ended {
                    self.take_last_line(alloc)
                } else {
                    Next::More
                }
            }
        }
    }

    /// What comes next where a header is open.
    fn finish(&mut self, alloc: Global, ended: bool) -> Next
        requires sound { IsSound self.old }
        requires some { IsSome self.old.header }
        ensures sound { IsSound self.new }
        ensures held { self.new.held ≡ self.old.held }
        ensures gives { Gives ended (wait self.old) result (wait self.new) }
    {
        if self.find_body() {
            self.take_command(alloc)
        } else if ended {
            self.take_last_body(alloc)
        } else {
            Next::More
        }
    }

    /// Begins again at a place where no header was open.
    fn go_back(&mut self, start: usize)
        requires { start ≤ length self.old.held.items }
        ensures sound { IsSound self.new }
        ensures held { self.new.held ≡ self.old.held }
        ensures start { self.new.start ≡ start }
    {
        self.start = start;
        self.scanned = 0;
        self.header = None;
        self.line = 0;
    }

    /// Lets what was given out go where it is the greater part, so that each byte is moved a bounded number of times.
    fn compact(&mut self)
        requires { IsSound self.old }
        ensures sound { IsSound self.new }
        ensures same { wait self.new ≡ wait self.old }
    {
        if self.start > self.held.len() / 2 {
            self.held.drain(..self.start);
            self.start = 0;
        }
    }

    /// Adds bytes at the end.
    pub fn feed(&mut self, piece: &[u8]) -> Result<(), NoMemory>
        requires { IsSound self.old }
        ensures sound { IsSound self.new }
        ensures ok { OnOk result (wait self.new ≡ wait self.old ++ piece.now) }
        ensures err { OnErr result (wait self.new ≡ wait self.old) }
    {
        self.compact();
        self.held.extend_from_slice(piece)?;
        Ok(())
    }
}
