//! Tables by number, which have an answer for every number.
use sd_num::NoMemory;
use std::alloc::Global;

/// The entry of a number, or another value where there is none.
pub(crate) fn entry_or<T: Copy>(table: &[T], number: u32, other: T) -> T {
    match table.get(number as usize) {
        Some(entry) => *entry,
        None => other,
    }
}

/// Sets the entry of a number, where there is one.
pub fn set_entry<T: Copy>(table: &mut [T], number: u32, entry: T) {
    if (number as usize) < table.len() {
        table[number as usize] = entry;
    }
}

/// Whether a flag is set.
pub fn is_set(flags: &[bool], number: u32) -> bool {
    entry_or(flags, number, false)
}

/// A flag for each number, none of them set.
pub fn no_flags(alloc: Global, count: u32) -> Result<Vec<bool>, NoMemory> {
    match vec![in alloc; false; count as usize] {
        Ok(flags) => Ok(flags),
        Err(_) => Err(NoMemory),
    }
}

/// Sets no flag any more.
pub fn clear_flags(flags: &mut [bool]) {
    for number in 0..flags.len() {
        flags[number] = false;
    }
}

/// Becomes the same as another table of the same length.
pub fn copy_entries<T: Copy>(table: &mut [T], other: &[T]) {
    for number in 0..table.len() {
        if let Some(entry) = other.get(number) {
            table[number] = *entry;
        }
    }
}

/// Adds an item at the end of a list.
pub fn push<T: Drop>(list: &mut Vec<T>, item: T) -> Result<(), NoMemory> {
    match list.push(item) {
        Ok(()) => Ok(()),
        Err(_) => Err(NoMemory),
    }
}
