//! The backup root.
ghost use Rattle.std.specs.Prelude.{◌≡◌, ◌<◌, ◌&&◌, not, nat_eq, find, length};
ghost use Rattle.sd_planner.specs.Usable.{takes_part};
ghost use Rattle.sd_planner.specs.Views.{net_of, left_out};
ghost use Rattle.sd_planner.specs.Placing as placing;

use crate::present::Present;

/// Whether a candidate may be the backup root: it takes part and is not the root.
fn may_be_backup_root(present: &Present, root: u32, d: u32) -> bool
    requires { d < length (net_of present.now).devices }
    ensures { result
        ≡ (takes_part (net_of present.now) (left_out present.now) d && not (nat_eq d root)) }
{
    present.takes_part(d) && d != root
}

/// The first candidate that may be the backup root.
fn first_candidate(present: &Present, root: u32) -> Option<u32>
    ensures { result
        ≡ find (λ d. takes_part (net_of present.now) (left_out present.now) d
        && not (nat_eq d root)) (net_of present.now).roots }
{
    for d in present.topo.roots() {
        if may_be_backup_root(present, root, *d) {
            return Some(*d);
        }
    }
    None
}

/// The backup root: the first candidate that takes part, other than the root, or else the root.
pub fn backup_root_of(present: &Present, root: u32) -> u32
    ensures { result ≡ placing.backup_root_of (net_of present.now) root (left_out present.now) }
{
    match first_candidate(present, root) {
        Some(d) => d,
        None => root,
    }
}
