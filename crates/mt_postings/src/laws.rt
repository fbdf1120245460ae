//! Laws of posting lists and their codes, each the contract of a function.

ghost use Rattle.std.specs.Prelude.{◌≡◌, IfOk};
ghost use Rattle.mt_store_spec.specs.Positions.{HaveOneList, HasOneCode, AreToldByMembers};

use super::error::DecodeError;
use super::postings::Postings;
use mt_base::NoMemory;
use std::alloc::Global;

/// Bytes are the code of at most one list of so many positions.
pub fn have_one_list()
    ensures { HaveOneList }
{}

/// A posting list has one code.
pub fn has_one_code()
    ensures { HasOneCode }
{}

/// Ascending lists with the same positions are one.
pub fn told_by_members()
    ensures { AreToldByMembers }
{}

/// A list that is coded and read again is the same: only memory can be wanting.
pub fn read_back(alloc: Global, postings: &Postings) -> Result<Postings, NoMemory>
    ensures { IfOk result (λ again. again ≡ postings.now) }
{
    let bytes = postings.encode(alloc)?;
    match Postings::decode(alloc, postings.len(), bytes.as_slice()) {
        Ok(again) => Ok(again),
        Err(DecodeError::NoMemory) => Err(NoMemory),
        Err(_) => unreachable!(),
    }
}
