//! The instances of one kind while a vertical is read.

ghost use Rattle.std.specs.Prelude.{◌≡◌, [], None, IfOk, OnOk};
ghost use Rattle.mt_vertical.specs.Readers as spec;

use mt_base::{List, NoMemory, StructSpan, Value};
use std::alloc::Global;
use std::marker::Model;

/// An instance that has begun.
#[derive(Debug, Drop)]
struct Began {
    begin: u32,
    values: List<Value>,
}

impl Model for Began {
    ghost Value = { spec.Began };

    ghost view = { λ b. record { begin = b.begin; values = b.values } };
}

/// The instances that have ended, in order, and the one that is open.
#[derive(Debug, Drop)]
pub struct Instances {
    done: Vec<StructSpan>,
    open_one: Option<Began>,
}

impl Model for Instances {
    ghost Value = { spec.Kept };

    ghost view = { λ k. record { done = k.done.items; open_one = k.open_one } };
}

impl Instances {
    pub fn new(alloc: Global) -> Self
        ensures { result ≡ record { done = []; open_one = None } }
    {
        Instances {
            done: Vec::new(alloc),
            open_one: None,
        }
    }

    /// Ends the open instance at this place.
    pub fn end(&mut self, kind: u16, place: u32) -> Result<(), NoMemory>
        ensures { OnOk result (self.new ≡ spec.ended kind place self.old) }
    {
        match self.open_one.take() {
            Some(began) => {
                self.done
                    .push(StructSpan::new(kind, began.begin, place, began.values))?;
                Ok(())
            }
            None => Ok(()),
        }
    }

    /// Ends the open instance, and begins another.
    pub fn open(&mut self, kind: u16, place: u32, values: List<Value>) -> Result<(), NoMemory>
        ensures { OnOk result (self.new ≡ spec.opened kind place values self.old) }
    {
        self.end(kind, place)?;
        self.open_one = Some(Began {
            begin: place,
            values,
        });
        Ok(())
    }

    /// Ends the open instance, and adds an empty one.
    pub fn stand(&mut self, kind: u16, place: u32, values: List<Value>) -> Result<(), NoMemory>
        ensures { OnOk result (self.new ≡ spec.stood kind place values self.old) }
    {
        self.end(kind, place)?;
        self.done.push(StructSpan::new(kind, place, place, values))?;
        Ok(())
    }

    /// All of them, the open one ended at this place.
    pub fn finish(self, kind: u16, place: u32) -> Result<Vec<StructSpan>, NoMemory>
        ensures { IfOk result (λ all. all.items ≡ (spec.ended kind place self).done) }
    {
        let mut kept = self;
        kept.end(kind, place)?;
        Ok(kept.done)
    }
}
