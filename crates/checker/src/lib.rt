// The checker (docs/FORMATS.md, "Checking a plan"): records of a site and a plan text in, whoever wrote
// it, and out whether the text is a plan for the site.
#![tactic(auto)]

ghost use Rattle.std.specs.Prelude.{◌≡◌, false, ◌∷◌, ◌≤◌, length, get_or};
ghost use Rattle.hexline.specs.Lines.{Row, rows};
ghost use Rattle.model.specs.Counting.{all_below};
ghost use Rattle.planlines.specs.SaidLaws.{HeaderSays};
ghost use Rattle.checker.specs.Checks.{plan_verdict, checked_plan};
ghost use Rattle.checker.specs.Passing.{Passed};

use model::Order;
use planlines::PlanHeader;
use records::Accepted;
use site::{Reason, Refusal, Site};

// What the lines behind a plan's header come to, where none breaks the layout: whether each of the
// site's clusters has its line, by rising starts, and whether each portion starts where the one above
// ends or later and ends inside the interval.
#[derive(Clone, Copy)]
struct Walked {
    right: bool,
    apart: bool,
}

// Whether each of the first n clusters was seen. All are asked, without a branch.
fn all_seen(seen: &[bool; 64], n: usize) -> bool
    requires { n ≤ 64 }
    ensures { result ≡ all_below n (λ c. get_or seen.now c false) }
{
    seen[..n].iter().fold(true, |all, &was| all & was)
}

// What lines come to at an interval; none if one of them breaks the layout. They are walked once: each
// is asked for its layout, its cluster and whether it starts where the line above ends or later, and its
// start is kept in `starts`. That its tag has digits only is known where the tag is the cluster's.
// Ends have eight bytes: a start may be as large as four bytes allow.
fn walk_lines(site: Accepted, lines: &[u8], interval: u64, starts: &mut [u32; 64]) -> Option<Walked>
    ensures { Passed site.entry.site.now interval (rows lines.now) result starts.new }
{
    let clusters = site.clusters();
    let mut seen = [false; 64];
    let mut right = true;
    let mut apart = true;
    let mut last = 0;
    let mut until = 0;
    let mut rest = lines;
    // No iterator finds the lines: one that keeps the layout ends where its tag length says.
    while !rest.is_empty() {
        // Not by `?`: what is told of a line that breaks the layout stands here, and is tried to be wrong.
        let Some(line) = planlines::front_line(rest) else {
            return None;
        };
        let number = usize::from(line.number);
        let described = clusters.get(number).is_some_and(|cluster| {
            planlines::describes(cluster, rest, line.length, line.len)
        });
        if !described && !planlines::is_tag_whole(rest, line.len) {
            return None;
        }
        let begins = u64::from(line.start);
        let ends = begins + u64::from(line.length);
        apart &= (until <= begins) & (ends <= interval);
        if number < clusters.len() {
            right &= !seen[number] & described & (last <= line.start);
            seen[number] = true;
            starts[number] = line.start;
        } else {
            right = false;
        }
        last = line.start;
        until = ends;
        rest = &rest[23 + 2 * usize::from(line.len)..];
    }
    Some(Walked {
        right: right & all_seen(&seen, clusters.len()),
        apart,
    })
}

// What is said of the lines below a header. What decides by a higher number waits until the last line
// keeps the layout.
fn check_lines(site: Accepted, header: PlanHeader, lines: &[u8]) -> Result<(), Refusal>
    ensures { (h : Row) → HeaderSays h header.order header.clusters → result ≡ plan_verdict site.entry.site.now (h ∷ rows lines.now) }
{
    let interval = u64::from(Order::new(header.order).interval());
    let mut starts = [0; 64];
    let Some(walked) = walk_lines(site, lines, interval, &mut starts) else {
        return Err(Reason::BrokenPlan.in_line(0));
    };
    if !deadlines::permits(site, header.order) {
        return Err(Reason::PlanOrder.in_line(0));
    }
    if !(walked.right & (header.clusters == site.site.cluster_count)) {
        return Err(Reason::PlanClusters.in_line(0));
    }
    if !walked.apart {
        return Err(Reason::PlanOverlap.in_line(0));
    }
    if !deadlines::all_on_time(site, header.order, &starts) {
        return Err(Reason::PlanLate.in_line(0));
    }
    Ok(())
}

// What is said of a plan text for accepted records: a refusal in line 0, or that it is a plan.
#[tactic(auto, using(crate::proofs::FirstLine::first_inside, crate::proofs::FirstLine::first_broken, crate::proofs::FirstLine::first_ended))]
pub fn check_accepted(site: Accepted, plan: &[u8]) -> Result<(), Refusal>
    ensures { result ≡ plan_verdict site.entry.site.now (rows plan.now) }
{
    let end = hexline::line_end(plan, 0);
    let Some(header) = planlines::header_line(&plan[..end], end < plan.len()) else {
        return Err(Reason::BrokenPlan.in_line(0));
    };
    check_lines(site, header, &plan[end + 1..])
}

// Whether a text is a plan for a site. Records that `check` refuses are refused alike.
#[tactic(auto, unfolding(crate::specs::Checks::checked_plan))]
pub fn check_plan(site: &Site, plan: &[u8]) -> Result<(), Refusal>
    ensures { result ≡ checked_plan site.now plan.now }
{
    records::check(site)?;
    check_accepted(Accepted { site }, plan)
}
