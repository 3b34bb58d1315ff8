// The tree of clusters as a slice of parents: depths, ancestors, and the top of a path
// (docs/FORMATS.md, "Allowed and actual crossings").
#![tactic(auto)]

ghost use Rattle.std.specs.Prelude.{◌≡◌, ℕ, ◌≤◌, ◌<◌, length};
ghost use Rattle.model.specs.Counting.{at as number_in, values};
ghost use Rattle.model.specs.Trees.{Tree, depth, top as top_of};
ghost use Rattle.tree.specs.Lineage.{lineage, Lineages};

// Fills `depths` with the depth of each cluster, counted from 0 at the root, and `lineages` with each
// cluster and its ancestors as a set: bit i of a number is cluster i, so that what two clusters share
// is one operation. A parent has a lower number, so its own are there before its children's.
pub fn climb(parents: &[u8], depths: &mut [u8], lineages: &mut [u64])
    requires { (length parents.now ≤ 64) × (length depths.old ≡ length parents.now) × (length lineages.old ≡ length parents.now) × Tree (number_in parents.now) (length parents.now) }
    ensures { (depths.new ≡ values (depth (number_in parents.now)) 0 (length parents.now)) × (lineages.new ≡ values (lineage (number_in parents.now)) 0 (length parents.now)) }
{
    if parents.is_empty() {
        return;
    }
    depths[0] = 0;
    lineages[0] = 1;
    for c in 1..parents.len() {
        let parent = usize::from(parents[c]);
        depths[c] = depths[parent] + 1;
        lineages[c] = lineages[parent] + (1u64 << c);
    }
}

// The lowest cluster of a tree that is an ancestor of both ends: the highest-numbered one of those
// that are in both lineages.
pub fn top(lineages: &[u64], a: usize, b: usize) -> usize
    requires { (length lineages.now ≤ 64) × (a < length lineages.now) × (b < length lineages.now) × ((parent : ℕ → ℕ) × Lineages parent lineages.now) }
    ensures { (parent : ℕ → ℕ) → Lineages parent lineages.now → result ≡ top_of parent a b }
{
    63 - u64::leading_zeros(lineages[a] & lineages[b]) as usize
}
