//! Values cut to their first or last characters.

ghost use Rattle.std.specs.Prelude.{◌≡◌, ◌≤◌, codes, length, IfOk};
ghost use Rattle.mt_mapper.specs.Calls.{counted};
ghost use Rattle.mt_mapper.specs.Images.{prefix, suffix, numbered};

use super::mapper::Mapper;
use mt_base::NoMemory;
use std::alloc::Global;
use std::marker::Model;

/// The mapper `prefixN`: the first N characters of a value, or all of them where there are fewer.
#[derive(Drop)]
pub struct Prefix {
    name: String,
    count: u32,
    calls: u64,
}

impl Model for Prefix {
    ghost use Rattle.std.specs.Prelude.{◌≡◌, codes, string_bytes};
    ghost use Rattle.mt_mapper.specs.Images.{Cutting, numbered};

    ghost Value = { Cutting };

    ghost view = { λ p. record { count = p.count; calls = p.calls } };

    ghost invariant = { λ p. string_bytes p.name ≡ numbered (codes "prefix") p.count };
}

impl Prefix {
    /// The mapper for so many characters, before its first call.
    pub fn new(alloc: Global, n: u32) -> Result<Self, NoMemory>
        ensures { IfOk result (λ made. made ≡ record { count = n; calls = 0 }) }
    {
        Ok(Prefix {
            name: format!(in alloc; "prefix{n}")?,
            count: n,
            calls: 0,
        })
    }
}

impl Mapper for Prefix {
    ghost called = { λ p. numbered (codes "prefix") p.count };

    ghost image = { λ p. prefix p.count };

    ghost calls = { λ p. p.calls };

    fn name(&self) -> &str {
        self.name.as_str()
    }

    fn map(&mut self, value: &str, out: &mut String) -> Result<(), NoMemory> {
        self.calls = self.calls.saturating_add(1);
        out.clear();
        out.push_str(first_chars(value, self.count as usize))?;
        Ok(())
    }
}

/// The mapper `suffixN`: the last N characters of a value, or all of them where there are fewer.
#[derive(Drop)]
pub struct Suffix {
    name: String,
    count: u32,
    calls: u64,
}

impl Model for Suffix {
    ghost use Rattle.std.specs.Prelude.{◌≡◌, codes, string_bytes};
    ghost use Rattle.mt_mapper.specs.Images.{Cutting, numbered};

    ghost Value = { Cutting };

    ghost view = { λ s. record { count = s.count; calls = s.calls } };

    ghost invariant = { λ s. string_bytes s.name ≡ numbered (codes "suffix") s.count };
}

impl Suffix {
    /// The mapper for so many characters, before its first call.
    pub fn new(alloc: Global, n: u32) -> Result<Self, NoMemory>
        ensures { IfOk result (λ made. made ≡ record { count = n; calls = 0 }) }
    {
        Ok(Suffix {
            name: format!(in alloc; "suffix{n}")?,
            count: n,
            calls: 0,
        })
    }
}

impl Mapper for Suffix {
    ghost called = { λ s. numbered (codes "suffix") s.count };

    ghost image = { λ s. suffix s.count };

    ghost calls = { λ s. s.calls };

    fn name(&self) -> &str {
        self.name.as_str()
    }

    fn map(&mut self, value: &str, out: &mut String) -> Result<(), NoMemory> {
        self.calls = self.calls.saturating_add(1);
        out.clear();
        out.push_str(last_chars(value, self.count as usize))?;
        Ok(())
    }
}

/// The first characters of a text.
fn first_chars(text: &str, count: usize) -> &str
    ensures front { result.now ≡ prefix count text.now }
    ensures within { length result.now ≤ length text.now }
{
    let mut others = text.chars();
    for _ in 0..count {
        let Some(_) = others.next() else {
            return text;
        };
    }
    &text[..text.len() - others.as_str().len()]
}

/// The last characters of a text.
fn last_chars(text: &str, count: usize) -> &str
    ensures { result.now ≡ suffix count text.now }
{
    let others = first_chars(text, text.chars().count().saturating_sub(count));
    &text[others.len()..]
}
