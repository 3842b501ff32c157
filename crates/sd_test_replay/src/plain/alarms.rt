//! Loops of parents, and several roots.

use super::replay::PlainReplay;
use std::alloc::AllocError;

/// Whether following parents from a device comes back to it.
fn is_on_loop(parents: &[Option<u32>], d: u32) -> bool {
    let mut here = d;
    for _ in parents {
        let Some(Some(parent)) = parents.get(here as usize) else {
            return false;
        };
        if *parent == d {
            return true;
        }
        here = *parent;
    }
    false
}

impl PlainReplay<'_> {
    /// The parent of each live device, and none of another.
    fn live_parents(&self) -> Result<Vec<Option<u32>>, AllocError> {
        let mut parents = Vec::new(self.plain.alloc);
        for d in 0..self.site.net.devices {
            let is_live = self.plain.is_counted(d);
            parents.push(self.plain.parent(d).filter(|_| is_live))?;
        }
        Ok(parents)
    }

    /// The lowest device on a loop of parents of live devices.
    pub(crate) fn first_on_loop(&self) -> Result<Option<u32>, AllocError> {
        let parents = self.live_parents()?;
        for d in 0..self.site.net.devices {
            if is_on_loop(parents.as_slice(), d) {
                return Ok(Some(d));
            }
        }
        Ok(None)
    }

    /// The lowest live device from a number on that acts as root.
    fn root_from(&self, least: u32) -> Option<u32> {
        for d in least..self.site.net.devices {
            if self.plain.acts(d) && self.plain.is_counted(d) {
                return Some(d);
            }
        }
        None
    }

    /// The two lowest live devices that act as root, where at least two do.
    pub(crate) fn two_roots(&self) -> Option<(u32, u32)> {
        let first = self.root_from(0)?;
        let second = self.root_from(first.saturating_add(1))?;
        Some((first, second))
    }
}
