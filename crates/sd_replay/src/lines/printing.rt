//! The lines of one event, in a buffer that has room for all that an event can bring.
ghost use Rattle.std.specs.Prelude.{◌≡◌, ◌<◌, ◌≤◌, ◌+◌, ◌++◌, [], ◌∷◌, ℕ, length, flat_map, codes, decimal, IfSome, if◌then◌else◌};
ghost use Rattle.sd_num.specs.Texts.{text_of};
ghost use Rattle.sd_num.specs.Lists.{map_or};
ghost use Rattle.sd_replay.specs.lines.Printed.{printed};
ghost use Rattle.sd_plan.specs.topo.Topologies.{network};
ghost use Rattle.sd_history.specs.Lines.{broken_lines, report_lines};
ghost use Rattle.sd_history.specs.Text.{device_name};
ghost use Rattle.sd_replay.specs.lines.Findings.{IsOf, line_bytes, found_bytes, loop_found, roots_found};

use crate::lines::{EventLines, Findings};
use crate::watch::outside;
use sd_history::BrokenSet;
use sd_num::clock::Report;
use sd_plan::topo::Topology;

/// Adds the name of a device, of at most 64 bytes.
fn push_name(out: &mut EventLines, topo: &Topology, d: u32)
    requires device { d < length (network topo.now).devices }
    requires room { length (printed out.old) + 64 ≤ 2048 }
    ensures text { printed out.new ≡ printed out.old ++ device_name (network topo.now) d }
    ensures short { length (printed out.new) ≤ length (printed out.old) + 64 }
{
    out.push(topo.device_name(d).as_bytes());
}

/// Adds a space and the digits of a number.
fn push_field(out: &mut EventLines, number: u128)
    requires room { length (printed out.old) + 41 ≤ 2048 }
    ensures text { printed out.new ≡ printed out.old ++ (32 ∷ decimal number) }
    ensures short { length (printed out.new) ≤ length (printed out.old) + 41 }
{
    out.push(b" ");
    out.push_number(number);
}

/// Prints the line of a premise where it breaks with the event.
fn print_premise(out: &mut EventLines, number: u64, name: &str, breaks: bool)
    requires name { length name.now ≤ 6 }
    requires room { length (printed out.old) + 55 ≤ 2048 }
    ensures text { printed out.new ≡ printed out.old
        ++ (if breaks then text_of (codes "broken" ∷ decimal number ∷ name.now ∷ []) else []) }
    ensures short { length (printed out.new) ≤ length (printed out.old) + 55 }
{
    if breaks {
        out.push(b"broken ");
        out.push_number(u128::from(number));
        out.push(b" ");
        out.push(name.as_bytes());
        out.push(b"\n");
    }
}

/// Prints the lines of the premises that break with the event.
fn print_broken(out: &mut EventLines, topo: &Topology, number: u64, broken: &BrokenSet)
    requires room { length (printed out.old) + 385 ≤ 2048 }
    ensures text { printed out.new ≡ printed out.old
        ++ flat_map (line_bytes (network topo.now) number) (broken_lines broken.now) }
    ensures short { length (printed out.new) ≤ length (printed out.old) + 385 }
{
    print_premise(out, number, "start", broken.start);
    print_premise(out, number, "drift", broken.drift);
    print_premise(out, number, "delay", broken.delay);
    print_premise(out, number, "tick", broken.tick);
    print_premise(out, number, "loss", broken.loss);
    print_premise(out, number, "domain", broken.domain);
    print_premise(out, number, "renew", broken.renew);
}

/// Prints the alarm of a loop, if there is one.
fn print_loop(out: &mut EventLines, topo: &Topology, number: u64, looped: Option<u32>)
    requires device { IfSome looped (λ d. d < length (network topo.now).devices) }
    requires room { length (printed out.old) + 117 ≤ 2048 }
    ensures text { printed out.new ≡ printed out.old
        ++ flat_map (line_bytes (network topo.now) number) (loop_found looped) }
    ensures short { length (printed out.new) ≤ length (printed out.old) + 117 }
{
    if let Some(d) = looped {
        out.push(b"alarm ");
        out.push_number(u128::from(number));
        out.push(b" loop ");
        push_name(out, topo, d);
        out.push(b"\n");
    }
}

/// Prints the alarm of two devices that act as root, if there is one.
fn print_roots(out: &mut EventLines, topo: &Topology, number: u64, roots: Option<(u32, u32)>)
    requires first { IfSome roots (λ two. two.0 < length (network topo.now).devices) }
    requires second { IfSome roots (λ two. two.1 < length (network topo.now).devices) }
    requires room { length (printed out.old) + 183 ≤ 2048 }
    ensures text { printed out.new ≡ printed out.old
        ++ flat_map (line_bytes (network topo.now) number) (roots_found roots) }
    ensures short { length (printed out.new) ≤ length (printed out.old) + 183 }
{
    if let Some((first, second)) = roots {
        out.push(b"alarm ");
        out.push_number(u128::from(number));
        out.push(b" roots ");
        push_name(out, topo, first);
        out.push(b" ");
        push_name(out, topo, second);
        out.push(b"\n");
    }
}

/// Prints the line of a report.
fn print_report(out: &mut EventLines, topo: &Topology, number: u64, d: u32, report: Report)
    requires device { d < length (network topo.now).devices }
    requires room { length (printed out.old) + 195 ≤ 2048 }
    ensures text { printed out.new ≡ printed out.old
        ++ text_of (codes "report" ∷ decimal number ∷ device_name
        (network topo.now) d ∷ decimal report.clock ∷ decimal report.eps ∷ []) }
    ensures short { length (printed out.new) ≤ length (printed out.old) + 195 }
{
    out.push(b"report");
    push_field(out, u128::from(number));
    out.push(b" ");
    push_name(out, topo, d);
    push_field(out, report.clock);
    push_field(out, report.eps);
    out.push(b"\n");
}

/// Prints the alarm of an interval that misses the reference time.
fn print_interval(out: &mut EventLines, topo: &Topology, number: u64, d: u32, reference: u64)
    requires device { d < length (network topo.now).devices }
    requires room { length (printed out.old) + 162 ≤ 2048 }
    ensures text { printed out.new ≡ printed out.old
        ++ text_of (codes "alarm" ∷ decimal number ∷ codes "interval" ∷ device_name
        (network topo.now) d ∷ decimal reference ∷ []) }
    ensures short { length (printed out.new) ≤ length (printed out.old) + 162 }
{
    out.push(b"alarm ");
    out.push_number(u128::from(number));
    out.push(b" interval ");
    push_name(out, topo, d);
    out.push(b" ");
    out.push_number(u128::from(reference));
    out.push(b"\n");
}

/// Prints what an `ask` brings: the report, and an alarm where it misses the reference time.
fn print_answer(out: &mut EventLines, topo: &Topology, number: u64, findings: &Findings)
    requires device { IfSome findings.now.report
        (λ told. told.0 < length (network topo.now).devices) }
    requires room { length (printed out.old) + 357 ≤ 2048 }
    ensures text { printed out.new ≡ printed out.old
        ++ flat_map (line_bytes (network topo.now) number)
        (map_or findings.now.report [] (report_lines findings.now.reference)) }
    ensures short { length (printed out.new) ≤ length (printed out.old) + 357 }
{
    if let Some((d, report)) = findings.report {
        print_report(out, topo, number, d, report);
        if outside(report, findings.reference) {
            print_interval(out, topo, number, d, findings.reference);
        }
    }
}

/// Prints the lines of the event with this number, in place of what was printed before. It takes
/// no memory.
pub fn print_findings(out: &mut EventLines, topo: &Topology, number: u64, findings: &Findings)
    requires { IsOf (network topo.now) findings.now }
    ensures { printed out.new ≡ found_bytes (network topo.now) number findings.now }
{
    out.clear();
    print_broken(out, topo, number, &findings.broken);
    print_loop(out, topo, number, findings.looped);
    print_roots(out, topo, number, findings.roots);
    print_answer(out, topo, number, findings);
}
