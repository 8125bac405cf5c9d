//! Equal pages.
ghost use Rattle.std.specs.Prelude.{◌≡◌, ◌+◌, ◌≤◌, ◌++◌, [], length, IfOk, vec_len, vec_capacity, OnOk};

use crate::page::Page;
use isis_base::{LspId, OutOfMemory};
use std::alloc::Global;

/// A value of which an equal one is made, where there is memory.
pub trait TryCopy: Sized {
    /// An equal value.
    fn try_copy(&self) -> Result<Self, OutOfMemory>
        ensures { IfOk result (λ copy. copy ≡ self.now) };
}

/// Equal pages.
pub(crate) fn copy_pages<T: Drop + TryCopy>(
    alloc: Global,
    pages: &[Page<T>],
) -> Result<Vec<Page<T>>, OutOfMemory>
    ensures { IfOk result (λ copy. copy.items ≡ pages.now) }
{
    let mut copy = Vec::new(alloc);
    let mut left = pages;
    while let [page, more @ ..] = left {
        let page = match page.copy(alloc) {
            Ok(page) => page,
            Err(fault) => return Err(fault),
        };
        match copy.push(page) {
            Ok(()) => {}
            Err(_) => return Err(OutOfMemory),
        }
        left = more;
    }
    Ok(copy)
}

/// Puts equal pairs behind those of a list.
pub(crate) fn copy_pairs<T: Drop + TryCopy>(
    pairs: &[(LspId, T)],
    copy: &mut Vec<(LspId, T)>,
) -> Result<(), OutOfMemory>
    requires { length copy.old.items + length pairs.now ≤ vec_capacity copy.old }
    ensures all { OnOk result (copy.new.items ≡ copy.old.items ++ pairs.now) }
    ensures room { OnOk result (vec_capacity copy.new ≡ vec_capacity copy.old) }
{
    let mut left = pairs;
    while let [pair, more @ ..] = left {
        let value = match pair.1.try_copy() {
            Ok(value) => value,
            Err(fault) => return Err(fault),
        };
        copy.push_reserved((pair.0, value));
        left = more;
    }
    Ok(())
}
