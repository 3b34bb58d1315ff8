// The constraints on N, each at its place of a list, and the limits of the flows that they are made
// with (docs/FORMATS.md, "The plan that is returned").
#![tactic(auto)]

ghost use Rattle.std.specs.Prelude.{◌≡◌, ◌+◌, ◌-◌, ◌*◌, ◌/◌, ◌≤◌, ◌<◌, length, get_or};
ghost use Rattle.model.specs.Orders.{largest, interval};
ghost use Rattle.constraints.specs.Entries.{blank, limits_of, Shallow};

use model::Order;

// N(to) - N(from) is at most a limit, which may be below 0: `credit` is BIAS above it. All three
// numbers are as wide as the credit, so that an entry has no gap.
#[derive(Clone, Copy, Debug, PartialEq, Eq, Drop)]
pub struct Constraint {
    pub from: u32,
    pub to: u32,
    pub credit: u32,
}

pub const BIAS: u32 = 64;

// What the constraints of a site are made of: the parent of each cluster, and for each flow its
// source, its sink and its limit.
#[derive(Clone, Copy, Drop)]
pub struct Links<'a> {
    pub parents: &'a [u8],
    pub sources: &'a [u8],
    pub sinks: &'a [u8],
    pub limits: &'a [u32],
    pub ghost some_cluster: { 0 < length parents.now },
    pub ghost few_clusters: { length parents.now ≤ 64 },
    pub ghost sinks_agree: { length sinks.now ≡ length sources.now },
    pub ghost limits_agree: { length limits.now ≡ length sources.now },
}

impl<'a> Links<'a> {
    ghost use Rattle.constraints.specs.Links.{entries_of};

    // How many constraints there are.
    pub fn constraint_count(&self) -> usize
        ensures { result ≡ length (entries_of self.now) }
    {
        2 * (self.parents.len() - 1) + self.sources.len()
    }

    // The constraint at a place of the list. One for each flow comes first, from its sink to its
    // source. Then the tree's: one from each child up to its parent, the last child first, and one
    // from each parent down to its child, the first child first.
    pub fn constraint_at(&self, place: usize) -> Constraint
        requires { place < length (entries_of self.now) }
        ensures { result ≡ get_or (entries_of self.now) place blank }
    {
        let flows = self.sources.len();
        if place < flows {
            return Constraint {
                from: u32::from(self.sinks[place]),
                to: u32::from(self.sources[place]),
                credit: self.limits[place],
            };
        }
        let of_tree = place - flows;
        let children = self.parents.len() - 1;
        if of_tree < children {
            let child = children - of_tree;
            return Constraint {
                from: child as u32,
                to: u32::from(self.parents[child]),
                credit: BIAS,
            };
        }
        let child = of_tree - children + 1;
        Constraint {
            from: u32::from(self.parents[child]),
            to: child as u32,
            credit: BIAS + 1,
        }
    }
}

// The crossed periods that a deadline allows at an order: one less than the whole intervals in it, or
// 0. An interval is the base doubled as often as the order says, so no division is by a number that
// only a site tells.
pub fn allowed(deadline: u32, order: u8) -> u32
    requires { order ≤ largest }
    ensures { result ≡ deadline / interval order - 1 }
{
    ((deadline / Order::BASE) >> order).saturating_sub(1)
}

// Turns deadlines into the limits of their flows at an order, in place: `limits` holds the deadlines
// at first.
pub fn limit_flows(descents: &[u8], order: u8, limits: &mut [u32])
    requires { (order ≤ largest) × Shallow descents.now × (length limits.old ≡ length descents.now) }
    ensures { limits.new ≡ limits_of descents.now limits.old (interval order) }
{
    for (flow, limit) in limits.iter_mut().enumerate() {
        *limit = allowed(*limit, order) + BIAS - u32::from(descents[flow]);
    }
}
