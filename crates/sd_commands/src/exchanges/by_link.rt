//! The spans of all exchanges of each link, joined as they come.
ghost use Rattle.std.specs.Prelude.{◌≡◌, ◌+◌, ◌-◌, ◌<◌, ◌^◌, ◌∷◌, [], ℕ, List, IfOk, length};
ghost use Rattle.sd_commands.specs.exchanges.Spans.{joint_span};
ghost use Rattle.sd_commands.specs.exchanges.Joints.{AreFew, CoversAll, StandsFor, count_of, joint_at, joined as joined_of, spans_on};
ghost use Rattle.sd_commands.specs.declared.exchanges.Span.{Span as Bounds};

use crate::exchanges::Span;
use sd_num::NoMemory;
use std::alloc::Global;
use std::marker::Model;

/// For each link the least `min` and the greatest `max` of the spans that were added to it, and
/// how many there are. A span is added in constant time.
#[derive(Drop)]
pub struct Spans {
    /// By link: nothing where no span was added.
    joints: Vec<Option<(Span, u64)>>,
}

impl Model for Spans {
    ghost use Rattle.sd_commands.specs.exchanges.Joints.{Joints};

    ghost Value = { Joints };

    ghost view = { λ spans. spans.joints.items };
}

impl Spans {
    /// No span was added to any of this many links.
    pub fn new(alloc: Global, links: u32) -> Result<Spans, NoMemory>
        ensures links { IfOk result (λ spans. length spans ≡ links) }
        ensures stands { IfOk result (λ spans. StandsFor spans []) }
        ensures few { IfOk result (λ spans. AreFew spans 0) }
    {
        match vec![in alloc; None; links as usize] {
            Ok(joints) => Ok(Spans { joints }),
            Err(_) => Err(NoMemory),
        }
    }

    /// Adds a span to a link.
    pub fn add(&mut self, link: u32, span: Span)
        requires link { link < length self.old }
        requires room { count_of (joint_at self.old link) < 2 ^ 64 - 1 }
        ensures links { length self.new ≡ length self.old }
        ensures stands { (added : List (ℕ × Bounds)) → StandsFor self.old added
            → StandsFor self.new ((link, span) ∷ added) }
        ensures few { (most : ℕ) → AreFew self.old most → AreFew self.new (most + 1) }
    {
        let place = link as usize;
        self.joints[place] = Some(joined(self.joints[place], span));
    }

    #[tactic(auto, using(crate::proofs::exchanges::Joining::covers_all))]
    /// The least `min` and the greatest `max` of the spans that were added to a link, with their
    /// number; nothing where there is none.
    pub fn get(&self, link: u32) -> Option<(Span, u64)>
        requires { link < length self.now }
        ensures kept { result ≡ joint_at self.now link }
        ensures joint { (added : List (ℕ × Bounds)) → StandsFor self.now added
            → result ≡ joint_span (spans_on link added) }
        ensures covers { (added : List (ℕ × Bounds)) → StandsFor self.now added
            → CoversAll (spans_on link added) result }
    {
        self.joints[link as usize]
    }
}

/// What was joined so far, and one span more.
fn joined(joint: Option<(Span, u64)>, span: Span) -> (Span, u64)
    requires { count_of joint < 2 ^ 64 - 1 }
    ensures { result ≡ joined_of joint span }
{
    match joint {
        None => (span, 1),
        Some((joint, count)) => {
            let wider = Span {
                min: span.min.min(joint.min),
                max: span.max.max(joint.max),
            };
            (wider, count + 1)
        }
    }
}
