// The clusters in order of start (docs/FORMATS.md, "The plan that is returned"): each time the
// lowest-numbered cluster all of whose required predecessors are placed comes next. How much holds
// each cluster back is counted once, in a pass over the clusters and their parents, and lowered as
// clusters are placed. Those that nothing holds back are kept as a set, and so are, for each
// cluster, the children that wait for it. So n clusters take a number of steps in proportion to n.
#![tactic(auto)]

ghost use Rattle.std.specs.Prelude.{◌≡◌, ◌⊎◌, [], ◌+◌, ◌≤◌, ◌<◌, eqb, length, set, MatchOption};
ghost use Rattle.model.specs.Counting.{at, bit};
ghost use Rattle.sequence.specs.Holding.{Sized, later_of, child_first, Held, Following, Marked, Within, Lowerable, Lowered, Sequenced};
ghost use Rattle.sequence.specs.Sets.{bit_at};

mod clusters;

use clusters::Clusters;

// At most 64 clusters, each with its parent and its N.
#[derive(Clone, Copy)]
struct Tree<'a> {
    parents: &'a [u8],
    counts: &'a [u8],
    ghost sized: { Sized parents.now counts.now },
}

impl<'a> Tree<'a> {
    // How many clusters there are.
    fn len(&self) -> usize
        ensures { result ≡ length self.now.parents.now }
    {
        self.parents.len()
    }

    // The parent of c: the root has none, nor has a cluster whose parent is given as no cluster.
    fn parent(&self, c: usize) -> Option<usize>
        requires { c < length self.now.parents.now }
        ensures { MatchOption result
            ((c ≡ 0) ⊎ (length self.now.parents.now ≤ at self.now.parents.now c))
            (λ p. (p ≡ at self.now.parents.now c) × (0 < c) × (p < length self.now.parents.now)) }
    {
        let p = usize::from(self.parents[c]);
        if (c == 0) | (self.parents.len() <= p) {
            None
        } else {
            Some(p)
        }
    }

    // The one of c and its parent p that comes after the other: c where the count grows, and p where
    // it stays.
    #[tactic(auto, unfolding(crate::specs::Holding::later_of))]
    fn later_of(&self, p: usize, c: usize) -> usize
        requires { (p < length self.now.parents.now) × (c < length self.now.parents.now) }
        ensures later { result ≡ later_of (at self.now.counts.now) p c }
        ensures within { result < length self.now.parents.now }
    {
        if self.counts[p] < self.counts[c] {
            c
        } else {
            p
        }
    }

    // How much holds each cluster back before any cluster is placed: of each cluster and its parent,
    // one waits for the other.
    fn held_at_first(&self) -> [u8; 64]
        ensures { Held (length self.now.parents.now) (at self.now.parents.now) (at self.now.counts.now) [] result }
    {
        let mut held = [0; 64];
        for c in 1..self.len() {
            if let Some(p) = self.parent(c) {
                let later = self.later_of(p, c);
                held[later] += 1;
            }
        }
        held
    }

    // For each cluster the set of its children that come after it.
    fn followers(&self) -> [Clusters; 64]
        ensures { Following (length self.now.parents.now) (at self.now.parents.now) (at self.now.counts.now) result }
    {
        let mut sets = [Clusters::new(); 64];
        for c in 1..self.len() {
            if let Some(p) = self.parent(c) {
                sets[p].insert_if(c, self.counts[p] < self.counts[c]);
            }
        }
        sets
    }
}

// How much holds each of n clusters back, and the set of those that nothing holds back.
#[derive(Drop)]
struct Waiting {
    n: usize,
    held: [u8; 64],
    free: Clusters,
    ghost few: { n ≤ 64 },
    ghost marked: { Marked n held free },
}

// The set of those of n clusters that nothing holds back.
fn free_at_first(held: &[u8; 64], n: usize) -> Clusters
    requires { (n ≤ 64) × (length held.now ≡ 64) }
    ensures { Marked n held.now result }
{
    let mut free = Clusters::new();
    for (c, &by) in held[..n].iter().enumerate() {
        free.insert_if(c, by == 0);
    }
    free
}

impl Waiting {
    ghost use Rattle.sequence.specs.Waits.{Lowers};

    // Before any cluster is placed.
    fn at_first(tree: &Tree<'_>) -> Self
        ensures n { result.n ≡ length tree.now.parents.now }
        ensures held { Held (length tree.now.parents.now) (at tree.now.parents.now) (at tree.now.counts.now) [] result.held }
    {
        let n = tree.len();
        let held = tree.held_at_first();
        let free = free_at_first(&held, n);
        Self { n, held, free }
    }

    // One cluster less holds c back.
    fn lower(&mut self, c: usize)
        requires { (c < self.old.n) × (0 < at self.old.held c) }
        ensures { Lowers (λ j. bit (eqb j c)) self.old self.new }
    {
        self.held[c] -= 1;
        self.free.insert_if(c, self.held[c] == 0);
    }

    // The clusters of a set no longer wait for one that they waited for.
    fn release_all(&mut self, set: Clusters)
        requires { Lowerable self.old.n (bit_at set) self.old.held × Within self.old.n set }
        ensures { Lowers (bit_at set) self.old self.new }
    {
        for c in set.members() {
            self.lower(c);
        }
    }

    // The parent of x, where it comes after x, no longer waits for it.
    fn release_parent(&mut self, tree: &Tree<'_>, x: usize)
        requires { (self.old.n ≡ length tree.now.parents.now) × (x < self.old.n) × Lowerable self.old.n (λ c. bit (child_first (at tree.now.parents.now) (at tree.now.counts.now) x c)) self.old.held }
        ensures { Lowers (λ c. bit (child_first (at tree.now.parents.now) (at tree.now.counts.now) x c)) self.old self.new }
    {
        if let Some(p) = tree.parent(x) {
            if tree.counts[x] <= tree.counts[p] {
                self.lower(p);
            }
        }
    }

    // x is placed: from now on it holds back itself.
    fn mark(&mut self, x: usize)
        requires { (x < self.old.n) × (at self.old.held x ≡ 0) }
        ensures { (self.new.n ≡ self.old.n) × (self.new.held ≡ set self.old.held x (at self.old.held x + 1)) }
    {
        self.held[x] += 1;
        self.free.remove(x);
    }
}

// Fills the first entries of `placed` with the clusters in order of start, and gives how many there
// are. `counts` has N of each cluster. Where every cluster left waits for another, none is placed
// any more.
pub fn sequence(parents: &[u8], counts: &[u8], placed: &mut [u8]) -> usize
    requires { Sized parents.now counts.now × (length placed.old ≡ length parents.now) }
    ensures { Sequenced (length parents.now) (at parents.now) (at counts.now) placed.old placed.new result }
{
    let tree = Tree { parents, counts };
    let after = tree.followers();
    let mut waiting = Waiting::at_first(&tree);
    for (k, place) in placed.iter_mut().enumerate() {
        let Some(x) = waiting.free.lowest() else {
            return k;
        };
        *place = x as u8;
        waiting.release_all(after[x]);
        waiting.release_parent(&tree, x);
        waiting.mark(x);
    }
    parents.len()
}
