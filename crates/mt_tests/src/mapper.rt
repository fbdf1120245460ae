//! Images of a few values by each mapper.

use mt_base::{List, NoMemory, Value};
use mt_mapper::{Fold, Mapper, Prefix, Suffix, images};
use std::alloc::Global;
use std::test::Fail;

/// The list of these values.
fn list_of(alloc: Global, texts: &[&str]) -> Result<List<Value>, NoMemory> {
    let mut values = List::new(alloc);
    for text in texts {
        values.push(Value::new(alloc, text)?)?;
    }
    Ok(values)
}

/// Whether the values are these.
fn are(values: &List<Value>, texts: &[&str]) -> bool {
    for i in 0..values.len() {
        if texts.get(i) != Some(&values.get(i).as_str()) {
            return false;
        }
    }
    values.len() == texts.len()
}

/// Whether a mapper has this name and gives these images of six values.
fn maps<M: Mapper>(
    alloc: Global,
    mapper: &mut M,
    name: &str,
    wanted: &[&str; 6],
) -> Result<bool, NoMemory> {
    let values = list_of(alloc, &["school", "a", "", "Straße", "ÉTÉ", "日本語"])?;
    let images = images(alloc, &values, mapper)?;
    Ok(mapper.name() == name && are(&images, wanted))
}

fn folds(alloc: Global, wanted: &[&str; 6]) -> Result<bool, NoMemory> {
    maps(alloc, &mut Fold::new(alloc)?, "fold", wanted)
}

fn takes_fronts(
    alloc: Global,
    size: u32,
    name: &str,
    wanted: &[&str; 6],
) -> Result<bool, NoMemory> {
    maps(alloc, &mut Prefix::new(alloc, size)?, name, wanted)
}

fn takes_ends(alloc: Global, size: u32, name: &str, wanted: &[&str; 6]) -> Result<bool, NoMemory> {
    maps(alloc, &mut Suffix::new(alloc, size)?, name, wanted)
}

#[test]
fn images_of_six_values(rt: HostRuntime) -> Result<(), Fail> {
    let alloc = rt.alloc();
    let lower = ["school", "a", "", "strasse", "été", "日本語"];
    assert!(rt; folds(alloc, &lower)?);
    let all = ["school", "a", "", "Straße", "ÉTÉ", "日本語"];
    let fronts = ["sc", "a", "", "St", "ÉT", "日本"];
    assert!(rt;
        takes_fronts(alloc, 2, "prefix2", &fronts)? && takes_fronts(alloc, 10, "prefix10", &all)?
    );
    let ends = ["ol", "a", "", "ße", "TÉ", "本語"];
    assert!(rt;
        takes_ends(alloc, 2, "suffix2", &ends)? && takes_ends(alloc, 0, "suffix0", &[""; 6])?
    );
    Ok(())
}
