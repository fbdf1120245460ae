//! Keywords in their places, and the blocks that are open.

ghost use Rattle.std.specs.Prelude.{◌≡◌, ◌-◌, ◌∷◌, ◌++◌, [], nat_eq, nat_le, map, length, take, List, OnOk, OnErr, option_map};
ghost use Rattle.mt_file_spec.specs.RegistryFile as spec;
ghost use Rattle.mt_registry.specs.SeenBlock.{keyword_seen, keyword_option_seen, block_seen, effect_seen};

use mt_base::NoMemory;
use std::alloc::Global;
use std::marker::Model;

/// What has an effect in its place.
#[derive(Clone, Copy, Debug, PartialEq, Eq, Drop)]
pub enum Keyword {
    Attribute,
    Structure,
    Dynamic,
    FromAttr,
    WsAttr,
}

/// The keyword that a key is, if it is one.
pub fn keyword_of(key: &[u8]) -> Option<Keyword>
    ensures { keyword_option_seen result ≡ spec.keyword_of key.now }
{
    if key == b"ATTRIBUTE".as_slice() {
        Some(Keyword::Attribute)
    } else if key == b"STRUCTURE".as_slice() {
        Some(Keyword::Structure)
    } else if key == b"DYNAMIC".as_slice() {
        Some(Keyword::Dynamic)
    } else if key == b"FROMATTR".as_slice() {
        Some(Keyword::FromAttr)
    } else if key == b"WSATTR".as_slice() {
        Some(Keyword::WsAttr)
    } else {
        None
    }
}

/// Whether these are one keyword.
pub fn is_same(one: Keyword, other: Keyword) -> bool
    ensures { result ≡ spec.same_keyword (keyword_seen one) (keyword_seen other) }
{
    match one {
        Keyword::Attribute => matches!(other, Keyword::Attribute),
        Keyword::Structure => matches!(other, Keyword::Structure),
        Keyword::Dynamic => matches!(other, Keyword::Dynamic),
        Keyword::FromAttr => matches!(other, Keyword::FromAttr),
        Keyword::WsAttr => matches!(other, Keyword::WsAttr),
    }
}

/// Whether a keyword declares a name.
pub fn is_declaring(keyword: Keyword) -> bool
    ensures { result ≡ spec.is_declaring (keyword_seen keyword) }
{
    match keyword {
        Keyword::Attribute => true,
        Keyword::Structure => true,
        Keyword::Dynamic => false,
        Keyword::FromAttr => false,
        Keyword::WsAttr => false,
    }
}

/// An open block. The numbers are those of the lines that opened it.
#[derive(Clone, Copy, Debug, PartialEq, Eq, Drop)]
pub enum Block {
    /// One that has no effect, with all in it.
    Ignored,
    OfAttribute(usize),
    OfStructure(usize),
    /// One of another keyword in its place.
    Other,
}

/// A keyword in its place.
#[derive(Clone, Copy, Debug, PartialEq, Eq, Drop)]
pub struct Effect {
    pub keyword: Keyword,
    /// The number of the line that opened the block in which the keyword stands, or 0 at the top.
    pub place: usize,
    /// The block that it opens, if a brace follows.
    pub block: Block,
}

/// The effect of a keyword in the line of this number.
pub fn effect_in(number: usize, inner: Option<Block>, keyword: Keyword) -> Option<Effect>
    ensures { option_map effect_seen result ≡ spec.effect_in number (option_map block_seen inner) (keyword_seen keyword) }
{
    match inner {
        None => effect_at_top(number, keyword),
        Some(Block::OfAttribute(line)) => effect_in_attribute(line, keyword),
        Some(Block::OfStructure(line)) => effect_in_structure(line, keyword),
        Some(Block::Other) => None,
        Some(Block::Ignored) => None,
    }
}

fn effect_at_top(number: usize, keyword: Keyword) -> Option<Effect>
    ensures { option_map effect_seen result ≡ spec.effect_in number None (keyword_seen keyword) }
{
    let block = match keyword {
        Keyword::Attribute => Block::OfAttribute(number),
        Keyword::Structure => Block::OfStructure(number),
        Keyword::WsAttr => Block::Other,
        Keyword::Dynamic => return None,
        Keyword::FromAttr => return None,
    };
    Some(Effect {
        keyword,
        place: 0,
        block,
    })
}

fn effect_in_attribute(line: usize, keyword: Keyword) -> Option<Effect>
    ensures { option_map effect_seen result ≡ spec.effect_in 0 (Some (spec.OfAttribute line)) (keyword_seen keyword) }
{
    if matches!(keyword, Keyword::Dynamic) || matches!(keyword, Keyword::FromAttr) {
        Some(Effect {
            keyword,
            place: line,
            block: Block::Other,
        })
    } else {
        None
    }
}

fn effect_in_structure(line: usize, keyword: Keyword) -> Option<Effect>
    ensures { option_map effect_seen result ≡ spec.effect_in 0 (Some (spec.OfStructure line)) (keyword_seen keyword) }
{
    if matches!(keyword, Keyword::Attribute) {
        Some(Effect {
            keyword,
            place: line,
            block: Block::Other,
        })
    } else {
        None
    }
}

/// The open blocks, the innermost last.
#[derive(Debug, Drop)]
pub struct Blocks {
    open: Vec<Block>,
}

impl Model for Blocks {
    ghost use Rattle.std.specs.Prelude.{map as mapped, List as Items};
    ghost use Rattle.mt_file_spec.specs.RegistryFile.{Block as Kept};
    ghost use Rattle.mt_registry.specs.SeenBlock.{block_seen as seen};

    ghost Value = { Items Kept };

    ghost view = { λ b. mapped seen b.open.items };
}

impl Blocks {
    /// No block is open.
    pub fn new(alloc: Global) -> Self
        ensures { result ≡ [] }
    {
        Blocks {
            open: Vec::new(alloc),
        }
    }

    /// How many are open.
    pub fn depth(&self) -> usize
        ensures { result ≡ length self.now }
    {
        self.open.len()
    }

    /// The innermost.
    pub fn innermost(&self) -> Option<Block>
        ensures { option_map block_seen result ≡ spec.innermost self.now }
    {
        self.open.last().copied()
    }

    /// Opens a block in the innermost.
    pub fn open(&mut self, block: Block) -> Result<(), NoMemory>
        ensures ok { OnOk result (self.new ≡ self.old ++ block_seen block ∷ []) }
        ensures err { OnErr result (self.new ≡ self.old) }
    {
        match self.open.push(block) {
            Ok(()) => Ok(()),
            Err(_) => Err(NoMemory),
        }
    }

    /// Closes the innermost, if one is open.
    pub fn close(&mut self)
        ensures { self.new ≡ take (length self.old - 1) self.old }
    {
        self.open.pop();
    }
}
