//! Why a plan text is refused, and where.
ghost use Rattle.std.specs.Prelude.{◌≡◌, Some};
ghost use Rattle.sd_plantext.specs.Keys.{printed, word_of};

use std::fmt;
use thiserror::Error;

/// A key of a plan text, in the order in which keys are judged, or a whole text.
#[derive(Clone, Copy, Debug, PartialEq, Eq)]
pub enum PlanKey {
    Version,
    Root,
    BackupRoot,
    WaitFirst,
    WaitSecond,
    Wait,
    AbsentDevices,
    AbsentLinks,
    Rows,
    RowsDevice,
    RowsParent,
    RowsLink,
    RowsBackup,
    RowsBackupLink,
    /// The whole text of a plan.
    Plan,
    /// The whole text of what is left out.
    Absent,
}

impl PlanKey {
    /// The key as it is printed, after the array that it belongs to.
    pub fn word(self) -> &'static str
        ensures { result.now ≡ printed self }
    {
        match self {
            PlanKey::RowsDevice => "rows.device",
            PlanKey::RowsParent => "rows.parent",
            PlanKey::RowsLink => "rows.link",
            PlanKey::RowsBackup => "rows.backup",
            PlanKey::RowsBackupLink => "rows.backup_link",
            other => other.in_object(),
        }
    }

    /// The key as it stands in its object.
    pub(crate) fn in_object(self) -> &'static str
        ensures { result.now ≡ word_of self }
    {
        match self {
            PlanKey::Version => "version",
            PlanKey::Root => "root",
            PlanKey::BackupRoot => "backup_root",
            PlanKey::WaitFirst => "wait_first",
            PlanKey::WaitSecond => "wait_second",
            PlanKey::Wait => "wait",
            PlanKey::AbsentDevices => "absent_devices",
            PlanKey::AbsentLinks => "absent_links",
            PlanKey::Rows => "rows",
            PlanKey::RowsDevice => "device",
            PlanKey::RowsParent => "parent",
            PlanKey::RowsLink => "link",
            PlanKey::RowsBackup => "backup",
            PlanKey::RowsBackupLink => "backup_link",
            PlanKey::Plan => "plan",
            PlanKey::Absent => "absent",
        }
    }
}

impl fmt::Display for PlanKey {
    ghost output = { λ key. Some (printed key) };

    fn fmt<W: fmt::Write>(&self, f: &mut fmt::Formatter<W>) -> fmt::Result {
        f.write_str(self.word())
    }
}

/// Where a fault is: the key, and the number of the row in its array, from 1; 0 for a key at the
/// top and for the names in its array.
#[derive(Clone, Copy, Debug, PartialEq, Eq)]
pub struct PlanPlace {
    pub key: PlanKey,
    pub entry: u32,
}

impl fmt::Display for PlanPlace {
    fn fmt<W: fmt::Write>(&self, f: &mut fmt::Formatter<W>) -> fmt::Result {
        write!(f, "{} {}", self.key, self.entry)
    }
}

/// Why a plan text is refused: the first fault in the order of its keys. Only out of memory may
/// come in place of another fault, or where there is none.
#[derive(Debug, Drop, PartialEq, Eq, Error)]
pub enum PlanFault {
    /// The bytes are no JSON.
    #[error("the text is no JSON")]
    NotJson,
    /// A key is not there that has to be, or its value is null.
    #[error("missing: {0}")]
    Missing(PlanPlace),
    /// The value has another type, or is a number that is no whole number of 64 bits.
    #[error("of the wrong kind: {0}")]
    WrongKind(PlanPlace),
    /// A wait is above 2^60.
    #[error("out of range: {0}")]
    Range(PlanPlace),
    /// No device or link of the topology has the name.
    #[error("unknown name: {0}")]
    UnknownName(PlanPlace),
    /// A name comes twice in one array, or a device has a second row.
    #[error("named twice: {0}")]
    TwiceNamed(PlanPlace),
    /// The text is of another version than 1.
    #[error("unknown version: {0}")]
    Version(u64),
    /// Memory could not be had.
    #[error("out of memory")]
    Memory,
}
