//! Numbers found by the hash of their value.

ghost use Rattle.std.specs.Prelude.{◌≡◌, ◌-◌, ◌^◌, ◌<◌, ◌≤◌, [], ◌∷◌, ◌++◌, length, slice_index, IfOk, OnOk};
ghost use Rattle.mt_lexicon.specs.Hashed as spec;
ghost use Rattle.mt_lexicon.specs.Hashed.{IsLast, HasHash, IsInBucket, bucket_of};

use mt_base::NoMemory;
use std::alloc::Global;
use std::hash::{FoldHasher, Hasher};
use std::marker::Model;

/// A table that has buckets has at least so many.
const FEWEST_BUCKETS: usize = 32;

/// The hash of a value.
#[tactic(auto, unfolding(crate::specs::Hashed::hash_of))]
pub(crate) fn hash_of(value: &str) -> u32
    ensures { result ≡ spec.hash_of value.now }
{
    let mut hasher = FoldHasher::default();
    hasher.write(value.as_bytes());
    (hasher.finish() >> 32) as u32
}

/// The hash of a number's value, and where the numbers before it that are in its bucket end: right behind the last of them, or at 0.
#[derive(Clone, Copy)]
struct Link {
    hash: u32,
    below: u32,
}

/// Numbers from 0 on, each with the hash of its value, in chains by bucket. It is seen as the list of hashes and the number of buckets.
#[derive(Drop)]
pub(crate) struct Table {
    ends: Vec<u32>,
    links: Vec<Link>,
}

impl Model for Table {
    ghost use Rattle.std.specs.Prelude.{ℕ, ◌≤◌, ◌<◌, ◌^◌, List, length, vec_capacity};
    ghost use Rattle.mt_lexicon.specs.Hashed.{AreChained, hashes, belows};

    ghost Value = { List ℕ × ℕ };

    ghost view = { λ t. (hashes t.links.items, length t.ends.items) };

    ghost invariant = { λ t. AreChained (length t.ends.items) (hashes t.links.items) (belows t.links.items) t.ends.items × (length t.links.items < 2 ^ 32) × (length t.ends.items ≤ vec_capacity t.links) };
}

impl Table {
    /// No numbers. It takes no memory.
    pub(crate) fn new(alloc: Global) -> Self
        ensures hashes { result.0 ≡ [] }
        ensures buckets { result.1 ≡ 0 }
    {
        Table {
            ends: Vec::new(alloc),
            links: Vec::new(alloc),
        }
    }

    /// Behind the last number that has this hash, or 0.
    pub(crate) fn last(&self, hash: u32) -> u32
        ensures { IsLast (HasHash self.now.0 hash) (length self.now.0) result }
    {
        if self.links.is_empty() {
            return 0;
        }
        let bucket = self.bucket(hash);
        self.last_from(hash, self.ends[bucket])
    }

    /// Behind the last number before this one that has its hash, or 0.
    pub(crate) fn before(&self, number: u32) -> u32
        requires { number < length self.now.0 }
        ensures { IsLast (HasHash self.now.0 (slice_index self.now.0 number)) number result }
    {
        let link = self.links[number as usize];
        self.last_from(link.hash, link.below)
    }

    /// Behind the last number below `from` that has this hash, or 0, where the number right before `from` is in the hash's bucket.
    fn last_from(&self, hash: u32, from: u32) -> u32
        requires within { from ≤ length self.now.0 }
        requires bucket { 0 < from → IsInBucket self.now.0 self.now.1 (bucket_of self.now.1 hash) (from - 1) }
        ensures { IsLast (HasHash self.now.0 hash) from result }
    {
        let mut below = from;
        while below > 0 {
            let link = self.links[below as usize - 1];
            if link.hash == hash {
                return below;
            }
            below = link.below;
        }
        0
    }

    /// The bucket of a hash.
    #[tactic(auto, unfolding(crate::specs::Hashed::bucket_of))]
    fn bucket(&self, hash: u32) -> usize
        requires { 0 < self.now.1 }
        ensures bucket { result ≡ bucket_of self.now.1 hash }
        ensures within { result < self.now.1 }
    {
        hash as usize & (self.ends.len() - 1)
    }

    /// Makes room for one number more. Without memory nothing changes.
    pub(crate) fn reserve(&mut self, alloc: Global) -> Result<(), NoMemory>
        ensures hashes { self.new.0 ≡ self.old.0 }
        ensures room { OnOk result (length self.new.0 < self.new.1) }
    {
        if self.links.len() < self.ends.len() {
            return Ok(());
        }
        *self = self.grown(alloc)?;
        Ok(())
    }

    /// The same numbers in four times as many buckets, so that mostly a bucket has none or one.
    fn grown(&self, alloc: Global) -> Result<Self, NoMemory>
        ensures hashes { IfOk result (λ table. table.0 ≡ self.now.0) }
        ensures buckets { IfOk result (λ table. length table.0 < table.1) }
    {
        let buckets = self.links.len().saturating_mul(4).max(FEWEST_BUCKETS);
        let mut table = Table {
            ends: vec![in alloc; 0u32; buckets]?,
            links: Vec::with_capacity(alloc, buckets)?,
        };
        table.push_all(self.links.as_slice());
        Ok(table)
    }

    /// Adds the hashes of other numbers.
    fn push_all(&mut self, links: &[Link])
        requires empty { self.old.0 ≡ [] }
        requires room { length links.now ≤ self.old.1 }
        requires few { length links.now < 2 ^ 32 }
        ensures hashes { self.new.0 ≡ spec.hashes links.now }
        ensures buckets { self.new.1 ≡ self.old.1 }
    {
        for link in links {
            self.push(link.hash);
        }
    }

    /// Adds the hash of the next number.
    pub(crate) fn push(&mut self, hash: u32)
        requires room { length self.old.0 < self.old.1 }
        requires few { length self.old.0 < 2 ^ 32 - 1 }
        ensures hashes { self.new.0 ≡ self.old.0 ++ hash ∷ [] }
        ensures buckets { self.new.1 ≡ self.old.1 }
    {
        let bucket = self.bucket(hash);
        let below = self.ends[bucket];
        self.links.push_reserved(Link { hash, below });
        self.ends[bucket] = self.links.len() as u32;
    }
}
