//! What is present of a topology where devices and links are absent.
ghost use Rattle.std.specs.Prelude.{◌≡◌, map};
ghost use Rattle.sd_plan.specs.topo.Network.{device_numbers};
ghost use Rattle.sd_plan.specs.topo.Topologies.{network};
ghost use Rattle.sd_planner.specs.Usable.{takes_part, hop_to};
ghost use Rattle.sd_planner.specs.Neighbours.{all_neighbours};
ghost use Rattle.sd_planner.specs.Absences.{IsAbsentOf};

mod joining;
mod links;
mod rows;
mod turning;

use joining::neighbours_by_link;
use links::usable_links;
use rows::NeighbourRow;
use sd_num::NoMemory;
use sd_plan::topo::Topology;
use sd_plan::{Absent, Hop, present};
use std::alloc::Global;
use turning::neighbours_by_number;

/// A device next to another, and a usable link that joins the two.
#[derive(Clone, Copy, Debug, PartialEq, Eq)]
pub struct Neighbour {
    pub device: u32,
    pub link: u32,
}

impl Neighbour {
    /// The hop that leads to it.
    pub fn hop(&self) -> Hop
        ensures { result ≡ hop_to self.now }
    {
        Hop {
            parent: self.device,
            link: self.link,
        }
    }
}

/// A topology without what is absent: which devices take part, and the neighbours of each device
/// over usable links, ascending by device and then by link.
#[derive(Drop)]
pub struct Present<'a> {
    pub topo: &'a Topology,
    pub absent: &'a Absent,
    members: Vec<bool>,
    rows: Vec<NeighbourRow>,
    pub ghost is_absent: { IsAbsentOf (network topo.now) absent.now },
    pub ghost members_are: { members.items
        ≡ map (takes_part (network topo.now) absent.now) (device_numbers (network topo.now)) },
    pub ghost rows_are: { rows.items ≡ all_neighbours (network topo.now) absent.now },
}

impl<'a> Present<'a> {
    ghost use Rattle.std.specs.Prelude.{◌<◌, length, All, IfOk};
    ghost use Rattle.sd_planner.specs.Usable.{neighbours_of};
    ghost use Rattle.sd_planner.specs.Views.{net_of, left_out};

    /// What is present where these devices and links are absent. It takes the time of devices and
    /// links together.
    pub fn new(
        alloc: Global,
        topo: &'a Topology,
        absent: &'a Absent,
    ) -> Result<Present<'a>, NoMemory>
        requires absent { IsAbsentOf (network topo.now) absent.now }
        ensures network { IfOk result (λ made. net_of made ≡ network topo.now) }
        ensures absent { IfOk result (λ made. left_out made ≡ absent.now) }
    {
        let members = present(alloc, topo.devices(), absent.devices.as_slice())?;
        let usable = usable_links(alloc, topo, absent, &members)?;
        let by_link = neighbours_by_link(alloc, topo, &usable)?;
        let rows = neighbours_by_number(alloc, &by_link)?;
        Ok(Present {
            topo,
            absent,
            members,
            rows,
        })
    }

    /// Whether a device takes part.
    pub fn takes_part(&self, d: u32) -> bool
        requires { d < length (net_of self.now).devices }
        ensures { result ≡ takes_part (net_of self.now) (left_out self.now) d }
    {
        self.members[d as usize]
    }

    /// The neighbours of a device.
    pub fn neighbours_of(&self, d: u32) -> &[Neighbour]
        requires { d < length (net_of self.now).devices }
        ensures are { result.now ≡ neighbours_of (net_of self.now) (left_out self.now) d }
        ensures within { All
            (λ neighbour. neighbour.device < length (net_of self.now).devices) result.now }
    {
        self.rows[d as usize].as_slice()
    }
}
