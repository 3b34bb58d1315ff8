// The planner: from a site's records to the plan text in a lent room, or a refusal.
#![tactic(auto)]

mod outcome;

ghost use Rattle.std.specs.Prelude.{◌≡◌, length};
ghost use Rattle.model.specs.Plans.{plan as plan_of};
ghost use Rattle.model.specs.Sites.{Site as Described};
ghost use Rattle.plantext.specs.PlanText.{site_of};
ghost use Rattle.search.specs.Posed.{Posed};
ghost use Rattle.planner.specs.Answers.{outcome_answer, outcome_room, answer, room_after};
ghost use Rattle.planner.specs.Schedules.{Scheduled};

use model::Order;
pub use outcome::Plan;
use records::Accepted;
use search::{Figures, NoPlan};
use site::{Reason, Refusal, Site};

// The order, and how many clusters are placed.
#[derive(Clone, Copy)]
struct Schedule {
    order: u8,
    count: usize,
}

// The order of the plan of the site that the figures describe; the first entries of `placed` are
// then the clusters in order of start.
fn place_clusters(figures: &Figures, placed: &mut [u8]) -> Result<Schedule, NoPlan>
    requires { (length placed.old ≡ figures.now.cluster_count) × ((s : Described) × Posed s figures.now) }
    ensures { (s : Described) → Posed s figures.now → Scheduled s result placed.new }
{
    let n = figures.cluster_count;
    let mut counts = [0; 64];
    let order = search::search(figures, &mut counts[..n])?;
    // Taken out whole, as the search does it.
    let parents = figures.parents;
    let count = sequence::sequence(&parents[..n], &counts[..n], placed);
    Ok(Schedule { order, count })
}

// Plans accepted records: 7 or 8 where there is no plan, 9 where the room is shorter than its text.
// The clusters are walked twice: for their parents, the sum of their portions and the length of the
// text, which no order of start changes; and in order of start for the lines, each cluster starting
// where the one before it ends. Its arrays stand in a frame of their own: in its caller's they would lie
// under what reads the records too.
#[inline(never)]
pub fn plan_accepted(site: Accepted, room: &mut [u8]) -> Result<Plan, Refusal>
    ensures { (result ≡ outcome_answer site.entry.site.now (plan_of (site_of site.entry.site.now)) (length room.old)) × (room.new ≡ outcome_room site.entry.site.now (plan_of (site_of site.entry.site.now)) room.old) }
{
    let clusters = site.clusters();
    let mut parents = [0; 64];
    let mut total: u32 = 0;
    let mut size: usize = 9;
    for (i, cluster) in clusters.iter().enumerate() {
        parents[i] = cluster.parent;
        total += Order::new(cluster.order).portion();
        size += 23 + 2 * usize::from(cluster.tag.len);
    }
    let figures = figures::figures_of(site, parents, total);
    let mut placed = [0; 64];
    let schedule = match place_clusters(&figures, &mut placed[..clusters.len()]) {
        Ok(schedule) => schedule,
        Err(NoPlan::NoFit) => return Err(Reason::NoFit.in_line(0)),
        Err(NoPlan::NoPlacing) => return Err(Reason::NoPlacing.in_line(0)),
    };
    if room.len() < size {
        return Err(Reason::ShortRoom.in_line(0));
    }
    let order = schedule.order;
    let mut length = plantext::put_header(room, order, site.site.cluster_count);
    let mut start: u32 = 0;
    for &number in &placed[..schedule.count] {
        let cluster = &clusters[usize::from(number)];
        let portion = Order::new(cluster.order).portion();
        length = plantext::put_cluster(room, length, number, start, portion, &cluster.tag);
        start += portion;
    }
    Ok(Plan { length, order })
}

// Plans a site and writes the plan text into the room. Records that `check` refuses are refused
// alike; then come 7 and 8 where there is no plan and 9 for a room shorter than the
// text, with line 0. A refusal leaves the room as it was, and the bytes behind the text stay in any
// case.
#[tactic(auto, unfolding(crate::specs::Answers::answer, crate::specs::Answers::room_after))]
pub fn plan(site: &Site, room: &mut [u8]) -> Result<Plan, Refusal>
    ensures { (result ≡ answer site.now (length room.old)) × (room.new ≡ room_after site.now room.old) }
{
    records::check(site)?;
    plan_accepted(Accepted { site }, room)
}
