//! What a script holds.

use mt_base::{List, Value};

/// A question to the corpus. It changes nothing.
#[derive(Debug, Drop)]
pub enum Ask {
    /// How many spans the query matches.
    Count {
        cql: Value,
    },
    /// The spans that the query matches.
    Query {
        cql: Value,
    },
    /// The values of an attribute so many tokens behind the begin of each span, or before it where the offset is negative.
    Freq {
        attr: Value,
        offset: i32,
        cql: Value,
    },
    /// The values of an attribute in the window round each span, from one offset to another, that stand there `min` times or more.
    Colloc {
        attr: Value,
        from: i32,
        to: i32,
        min: u32,
        cql: Value,
    },
    /// The sketch of a lemma: collocates that occur `min` times or more, at most `max` a relation.
    Sketch {
        min: u32,
        max: u32,
        lemma: Value,
    },
    /// At most `max` words that are similar to a lemma.
    Thes {
        max: u32,
        lemma: Value,
    },
}

/// A line of a batch.
#[derive(Debug, Drop)]
pub enum BatchLine {
    /// A question.
    Good(Ask),
    /// A line that is no question.
    Bad,
}

/// What one may say to the engine. Bodies are lines as they stand in the script, each with its line feed.
#[derive(Debug, Drop)]
pub enum Command {
    /// Sets the registry that is in the file.
    Registry {
        file: Value,
    },
    /// Adds the text of this name whose vertical is the body.
    Text {
        name: Value,
        body: List<u8>,
    },
    /// Adds the text of this name whose vertical is in the file.
    Add {
        name: Value,
        file: Value,
    },
    /// Adds a text of so many tokens that follow from the seed.
    Generate {
        name: Value,
        seed: u64,
        tokens: u32,
    },
    /// Answers a question.
    Ask(Ask),
    /// Sets the sketch grammar that is in the file.
    Grammar {
        file: Value,
    },
    /// Sets the sketch grammar that the body is.
    Rules {
        body: List<u8>,
    },
    /// Puts one segment in the place of those from one number to another.
    Merge {
        from: u32,
        to: u32,
    },
    /// Answers questions, and merges meanwhile where a range is given.
    Batch {
        lines: List<BatchLine>,
        merge: Option<(u32, u32)>,
    },
    /// Tells how many texts and tokens each segment has.
    Segments,
    /// Stores the corpus under a name.
    Save {
        name: Value,
    },
    /// Takes the corpus that is stored under a name: the command `open`.
    Load {
        name: Value,
    },
    /// Ends the run.
    Quit,
    /// Takes the text of this name away.
    Remove {
        name: Value,
    },
    /// Defines the subcorpus of the structures that the query matches.
    Subcorpus {
        name: Value,
        cql: Value,
    },
    /// How many spans the query matches inside a subcorpus.
    Subcount {
        name: Value,
        cql: Value,
    },
    /// At most `max` values that are typical of a subcorpus; a greater `n` prefers common ones.
    Keywords {
        name: Value,
        attr: Value,
        n: u32,
        max: u32,
    },
    /// Loads a stored corpus beside this one, aligned by the structures of a kind.
    Partner {
        name: Value,
        kind: Value,
    },
}

/// What comes next in a script.
#[derive(Debug, Drop)]
pub enum Next {
    /// A command with its body.
    Command(Command),
    /// A line that is no command.
    Bad,
    /// The input ends inside a body.
    CutShort,
    /// No whole command is left, and more bytes may come.
    More,
    /// The input has ended and nothing is left.
    End,
    /// Out of memory. The reader is as it was.
    NoMemory,
}
