// The search for the order (docs/FORMATS.md, "The plan that is returned"): the largest permitted
// one at which the portions fit and the constraints have a solution.
#![tactic(auto)]

ghost use Rattle.std.specs.Prelude.{◌≡◌, ◌≤◌, length};
ghost use Rattle.model.specs.Orders.{largest};
ghost use Rattle.model.specs.Sites.{Site};
ghost use Rattle.search.specs.Posed.{Posed, eligible, Ending, Starting, Probed, Parted, Searched};

use constraints::Links;
use model::Order;
use relaxing::NegativeLoop;

// What the search works on, worked out once for a site: how many clusters and flows it has, the
// shortest required period, the sum of the portions, and one number for each cluster or flow from
// the front of each array on. A flow's descent is the downward part of its path.
#[derive(Clone, Copy, Drop)]
pub struct Figures {
    pub cluster_count: usize,
    pub flow_count: usize,
    pub shortest: u32,
    pub total: u32,
    pub parents: [u8; 64],
    pub depths: [u8; 64],
    pub sources: [u8; 128],
    pub sinks: [u8; 128],
    pub descents: [u8; 128],
    pub deadlines: [u32; 128],
}

// Why there is no order: the portions fit no permitted one, or no permitted one at which they fit has
// a solution.
#[derive(Clone, Copy, Debug, PartialEq, Eq, Drop)]
pub enum NoPlan {
    NoFit,
    NoPlacing,
}

// Whether an order is permitted by the shortest period and the sum of the portions fits it.
fn is_candidate(order: Order, figures: &Figures) -> bool
    requires { order.number ≤ largest }
    ensures { result ≡ eligible figures.now.shortest figures.now.total order.number }
{
    let periods = [figures.shortest];
    order.permitted(&periods) && figures.total <= order.interval()
}

// One more than the largest candidate; 0 where no order is one.
#[tactic(auto, using(model::specs::OrderLaws::no_order_refused))]
fn candidates_end(figures: &Figures) -> u8
    ensures { Ending figures.now.shortest figures.now.total result }
{
    for order in (0..=Order::LARGEST).rev() {
        if is_candidate(Order::new(order), figures) {
            return order + 1;
        }
    }
    0
}

// The smallest candidate below `end`; `end` where no order below it is one. A direction to go in, as an
// argument of one function for both, would only hide which end each of them gives.
fn candidates_start(end: u8, figures: &Figures) -> u8
    requires { end ≤ 15 }
    ensures { Starting figures.now.shortest figures.now.total end result }
{
    for order in 0..end {
        if is_candidate(Order::new(order), figures) {
            return order;
        }
    }
    end
}

// Fills `counts` with N of each cluster at an order, or gives that the order has no solution and
// leaves them as they are. The relaxing starts at the depths.
fn probe(order: Order, figures: &Figures, counts: &mut [u8]) -> Result<(), NegativeLoop>
    requires number_le_largest { order.number ≤ largest }
    requires counts_len { (length counts.old ≡ figures.now.cluster_count) × ((s : Site) × Posed s figures.now) }
    ensures { (s : Site) → Posed s figures.now → Probed s order.number result counts.old counts.new }
{
    let clusters = figures.cluster_count;
    let flows = figures.flow_count;
    // Whole arrays are taken out, and not slices of them: the compiler then keeps no second copy on
    // the stack.
    let descents = figures.descents;
    let mut limits = figures.deadlines;
    constraints::limit_flows(&descents[..flows], order.number, &mut limits[..flows]);
    let parents = figures.parents;
    let sources = figures.sources;
    let sinks = figures.sinks;
    let links = Links {
        parents: &parents[..clusters],
        sources: &sources[..flows],
        sinks: &sinks[..flows],
        limits: &limits[..flows],
    };
    let mut trial = figures.depths;
    relaxing::settle(&links, &mut trial[..clusters])?;
    counts.copy_from_slice(&trial[..clusters]);
    Ok(())
}

// One more than the largest order from `start` on below `end` that has a solution, with N of each
// cluster at it in `counts`; `start` where none has one, with `counts` as they were. The largest is
// tried first, and then the one in the middle of those that are left: a smaller order has a
// solution if a larger one has.
fn solved_end(start: u8, end: u8, figures: &Figures, counts: &mut [u8]) -> u8
    requires start_le_end { (start ≤ end) × (end ≤ 15) }
    requires counts_len { (length counts.old ≡ figures.now.cluster_count) × ((s : Site) × Posed s figures.now) }
    ensures lower_bound { (start ≤ result) × (result ≤ end) }
    ensures parted { (s : Site) → Posed s figures.now → Parted s start end result result counts.old counts.new }
{
    let mut from = start;
    let mut below = end;
    let mut step: u8 = 1;
    // By halves: which order comes next is told by the last, so there is no row to go over.
    while from < below {
        let order = below - step;
        match probe(Order::new(order), figures, counts) {
            Ok(()) => from = order + 1,
            Err(NegativeLoop) => below = order,
        }
        step = (below - from).div_ceil(2);
    }
    from
}

// The largest permitted order at which the portions fit and which has a solution, with N of each
// cluster in `counts`; these stay as they were where there is none.
pub fn search(figures: &Figures, counts: &mut [u8]) -> Result<u8, NoPlan>
    requires { (length counts.old ≡ figures.now.cluster_count) × ((s : Site) × Posed s figures.now) }
    ensures { (s : Site) → Posed s figures.now → Searched s result counts.old counts.new }
{
    let end = candidates_end(figures);
    let start = candidates_start(end, figures);
    let solved = solved_end(start, end, figures, counts);
    if start < solved {
        Ok(solved - 1)
    } else if start < end {
        Err(NoPlan::NoPlacing)
    } else {
        Err(NoPlan::NoFit)
    }
}
