//! The lines of an event.

use super::premises::Premise;
use super::site::Site;
use sd_num::clock::Report;
use std::alloc::{AllocError, Global};

/// What is to be printed of an event.
#[derive(Debug, Drop)]
pub struct Found {
    /// The number of its line, from 1.
    pub line: u64,
    /// Its reference, in ps.
    pub reference: u64,
    /// The premises that break with it, in their order.
    pub broken: Vec<Premise>,
    /// The lowest device on a loop of parents, where there was none before.
    pub looped: Option<u32>,
    /// The two lowest devices that act as root, where fewer did before.
    pub roots: Option<(u32, u32)>,
    /// The device that was asked, with its report.
    pub report: Option<(u32, Report)>,
}

impl Found {
    /// Whether there is a report whose interval does not have the reference in it.
    pub fn misses(&self) -> bool {
        match self.report {
            Some((_, report)) => report.clock.abs_diff(u128::from(self.reference)) > report.eps,
            None => false,
        }
    }

    /// The lines.
    pub fn text(&self, alloc: Global, site: &Site<'_>) -> Result<String, AllocError> {
        let mut text = String::new(alloc);
        self.print_broken(alloc, &mut text)?;
        self.print_alarms(alloc, site, &mut text)?;
        self.print_report(alloc, site, &mut text)?;
        Ok(text)
    }

    fn print_broken(&self, alloc: Global, text: &mut String) -> Result<(), AllocError> {
        let line = self.line;
        for premise in &self.broken {
            let word = premise.word();
            text.push_str(format!(in alloc; "broken {line} {word}\n")?.as_str())?;
        }
        Ok(())
    }

    fn print_alarms(
        &self,
        alloc: Global,
        site: &Site<'_>,
        text: &mut String,
    ) -> Result<(), AllocError> {
        let line = self.line;
        if let Some(d) = self.looped {
            let name = site.name(d);
            text.push_str(format!(in alloc; "alarm {line} loop {name}\n")?.as_str())?;
        }
        if let Some((d, e)) = self.roots {
            let name = site.name(d);
            let other = site.name(e);
            text.push_str(format!(in alloc; "alarm {line} roots {name} {other}\n")?.as_str())?;
        }
        Ok(())
    }

    fn print_report(
        &self,
        alloc: Global,
        site: &Site<'_>,
        text: &mut String,
    ) -> Result<(), AllocError> {
        let Some((d, Report { clock, eps })) = self.report else {
            return Ok(());
        };
        let line = self.line;
        let name = site.name(d);
        text.push_str(format!(in alloc; "report {line} {name} {clock} {eps}\n")?.as_str())?;
        if self.misses() {
            let reference = self.reference;
            text.push_str(format!(in alloc;
                "alarm {line} interval {name} {reference}\n"
            )?.as_str())?;
        }
        Ok(())
    }
}
