// What the flows of a site ask of a plan: an order that their periods permit, and starts at which none
// of them is late (docs/FORMATS.md, "Orders and lengths", "Allowed and actual crossings").
#![tactic(auto)]

ghost use Rattle.std.specs.Prelude.{◌≡◌, not, ◌≢◌, ℕ, ◌≤◌, ◌<◌, length};
ghost use Rattle.model.specs.Constraints.{flow_constraints};
ghost use Rattle.model.specs.Counting.{at, values};
ghost use Rattle.model.specs.CrossingsCounted.{parent_firsts};
ghost use Rattle.model.specs.Orders.{largest, permitted};
ghost use Rattle.model.specs.Relaxing.{all_okay, depths as depths_of};
ghost use Rattle.model.specs.Sites.{size, parent, periods};
ghost use Rattle.model.specs.Trees.{Tree};
ghost use Rattle.tree.specs.Lineage.{Lineages};
ghost use Rattle.plantext.specs.PlanText.{site_of};
ghost use Rattle.deadlines.specs.Late.{some_late};

use model::Order;
use records::Accepted;

// Whether an order is permitted: it is 14 at most, and its interval not longer than any flow's period.
#[tactic(auto, using(model::specs::OrderLaws::no_order_refused))]
pub fn permits(site: Accepted, order: u8) -> bool
    ensures { result ≡ permitted order (periods (site_of site.entry.site.now)) }
{
    if Order::LARGEST < order {
        return false;
    }
    let interval = Order::new(order).interval();
    site.flows().iter().all(|flow| interval <= flow.period)
}

// Fills `counts` with the steps from the root to each cluster on which the parent starts first. A
// parent has a lower number, so its own are there before its children's.
fn count_steps(parents: &[u8], starts: &[u32; 64], counts: &mut [u8])
    requires { (0 < length parents.now) × (length parents.now ≤ 64) × (length counts.old ≡ length parents.now) × Tree (at parents.now) (length parents.now) }
    ensures { counts.new ≡ values (parent_firsts (at parents.now) (at starts.now)) 0 (length parents.now) }
{
    counts[0] = 0;
    for c in 1..parents.len() {
        let parent = usize::from(parents[c]);
        counts[c] = counts[parent] + u8::from(starts[parent] < starts[c]);
    }
}

// Whether the constraint of each flow holds, with the counts as N: N(source) - N(sink) is at most the
// crossings that its deadline allows less the steps that its path goes down.
fn constraints_hold(
    site: Accepted,
    order: u8,
    depths: &[u8],
    lineages: &[u64],
    counts: &[u8],
) -> bool
    requires site_value { (order ≤ largest) × (length counts.now ≡ size (site_of site.site.now)) }
    requires depths_value { (depths.now ≡ depths_of (site_of site.site.now)) × (length lineages.now ≡ size (site_of site.site.now)) × Lineages (parent (site_of site.site.now)) lineages.now }
    ensures { result ≡ all_okay (flow_constraints (site_of site.entry.site.now) order) counts.now }
{
    for flow in site.flows() {
        let source = usize::from(flow.source);
        let sink = usize::from(flow.sink);
        let top = tree::top(lineages, source, sink);
        let down = usize::from(depths[sink] - depths[top]);
        let allowed = constraints::allowed(flow.deadline, order) as usize;
        if usize::from(counts[sink]) + allowed < usize::from(counts[source]) + down {
            return false;
        }
    }
    true
}

// Whether no flow is late, where no cluster starts together with its parent. The crossings of a path
// are counted without walking it: upwards it crosses where the parent starts first, downwards where it
// does not, so what counts are such steps above both ends, and how far the path goes down.
pub fn all_on_time(site: Accepted, order: u8, starts: &[u32; 64]) -> bool
    requires { (order ≤ largest) × ((c : ℕ) → 0 < c → c < size (site_of site.site.now) → at starts.now c ≢ at starts.now (parent (site_of site.site.now) c)) }
    ensures { result ≡ not (some_late (site_of site.entry.site.now) order (at starts.now)) }
{
    let clusters = site.clusters();
    let n = clusters.len();
    let mut parents = [0; 64];
    for (k, cluster) in clusters.iter().enumerate() {
        parents[k] = cluster.parent;
    }
    let mut depths = [0; 64];
    let mut lineages = [0; 64];
    tree::climb(&parents[..n], &mut depths[..n], &mut lineages[..n]);
    let mut counts = [0; 64];
    count_steps(&parents[..n], starts, &mut counts[..n]);
    constraints_hold(site, order, &depths[..n], &lineages[..n], &counts[..n])
}
