//! Posting lists: ascending lists of positions, cursors over them, and their codes.
//!
//! Contracts see `Postings` as the list of its positions, a `Cursor` as the positions that are left, a `Union` as the positions
//! that were added, a `BitWriter` as the
//! bits written, and a `BitReader` as the bits that are left and the place of the next one.
#![tactic(auto)]

mod code;
mod coded;
mod cursor;
mod decoding;
mod error;
mod kept;
mod laws;
mod moving;
mod numbers;
mod places;
mod postings;
mod reader;
mod union;
mod writer;

pub use cursor::Cursor;
pub use error::{CodeError, DecodeError};
pub use laws::{has_one_code, have_one_list, read_back, told_by_members};
pub use postings::Postings;
pub use reader::BitReader;
pub use union::Union;
pub use writer::BitWriter;

fn shared<T: Send + Sync>() {}

/// That threads may share these types is proved by this function.
pub fn are_shared() {
    shared::<Postings>();
    shared::<Cursor<'static>>();
    shared::<Union>();
    shared::<BitWriter>();
    shared::<BitReader<'static>>();
    shared::<CodeError>();
    shared::<DecodeError>();
}
