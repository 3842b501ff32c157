//! What is printed of a plan, a domain at a time.
ghost use Rattle.std.specs.Prelude.{◌≡◌, ℕ, List, IfOk, OnOk, IsTrue};
ghost use Rattle.std.specs.List.{concat};
ghost use Rattle.sd_drill_text.specs.Writes.{AreAllWrites};
ghost use Rattle.sd_files.specs.work.Leaving.{are_lines};
ghost use Rattle.sd_plan.specs.domain.Lone.{IsDomain};
ghost use Rattle.sd_plan.specs.declared.domain.DomainId.{DomainId as AnyDomain};
ghost use Rattle.sd_drill.specs.Budgets.{IsBudget};
ghost use Rattle.sd_checker.specs.Conditions.{IsAccepted};
ghost use Rattle.sd_drill.specs.declared.Budget.{Budget as AnyBudget};
ghost use Rattle.sd_io.specs.outside.Pieces.{Pieces};
ghost use Rattle.sd_plan.specs.Plans as plans;
ghost use Rattle.sd_plan.specs.Plans.{Fits};
ghost use Rattle.sd_plan.specs.declared.Plan.{Plan as AnyPlan};
ghost use Rattle.sd_plan.specs.topo.Limits.{IsNetwork};
ghost use Rattle.sd_plan.specs.topo.Network.{Network};
ghost use Rattle.sd_plan.specs.topo.Topologies.{network};

use sd_drill::Budget;
use sd_num::NoMemory;
use sd_plan::IndexedPlan;
use sd_plan::domain::DomainId;
use std::alloc::Global;

/// It prints the lines of one domain after another.
pub trait DomainLines: Drop + Sized {
    /// These are the lines of a domain, for a plan and a budget.
    ghost lines: { Network → AnyPlan → AnyBudget → AnyDomain → List ℕ → Type 0 };

    /// These are the lines of all domains, and the last line.
    ghost says: { Network → AnyPlan → AnyBudget → List ℕ → Type 0 };

    /// It is ready for a plan.
    ghost ready: { Self → Network → AnyPlan → Type 0 };

    /// The budget for which it prints.
    ghost granted: { Self → AnyBudget };

    /// What it printed last.
    ghost printing: { Self → List ℕ };

    /// Gets ready for a plan and a budget.
    fn new(alloc: Global, planned: IndexedPlan<'_>, budget: Budget) -> Result<Self, NoMemory>
        requires { IsBudget budget }
        ensures ready { IfOk result (λ lines. ready lines (network planned.entry.topo.now)
            planned.entry.plan.now) }
        ensures budget { IfOk result (λ lines. granted lines ≡ budget) };

    /// Prints the lines of a domain, for the members of the plan.
    fn print(
        &mut self,
        alloc: Global,
        planned: IndexedPlan<'_>,
        members: &[u32],
        domain: DomainId,
    ) -> Result<(), NoMemory>
        requires accepted { IsAccepted (network planned.topo.now) planned.plan.now }
        requires domain { IsDomain (network planned.topo.now) domain }
        requires members { members.now
            ≡ plans.members (network planned.topo.now) planned.plan.now }
        requires ready { ready self.old (network planned.topo.now) planned.plan.now }
        ensures lines { OnOk result (lines (network planned.entry.topo.now)
            planned.entry.plan.now (granted self.old) domain (printing self.new)) }
        ensures ready { ready self.new (network planned.entry.topo.now) planned.entry.plan.now }
        ensures budget { granted self.new ≡ granted self.old };

    /// Lends what it printed last.
    fn printed(&self) -> &[u8]
        ensures { result.now ≡ printing self.now };

    /// The lines of a domain are whole.
    ghost ends: { (net : Network) (plan : AnyPlan) (budget : AnyBudget) (f : AnyDomain)
        (bytes : List ℕ) → lines net plan budget f bytes → IsTrue (are_lines bytes) };

    /// An accepted plan has lines of each domain.
    ghost has: { (net : Network) (plan : AnyPlan) (budget : AnyBudget) → IsNetwork net
        → Fits net plan → IsAccepted net plan → (f : AnyDomain) → IsDomain net f
        → (bytes : List ℕ) × lines net plan budget f bytes };

    /// What is written domain by domain is all of it.
    ghost whole: { (net : Network) (plan : AnyPlan) (budget : AnyBudget) (pieces : Pieces)
        → AreAllWrites (lines net plan budget) net plan pieces
        → says net plan budget (concat pieces) };
}
