// The check of records that a caller hands in (docs/FORMATS.md, "Records handed in").
#![tactic(auto)]

mod accepted;

ghost use Rattle.std.specs.Prelude.{◌≡◌, ◌≤◌, length};
ghost use Rattle.site.specs.Fields.{cluster_verdict, tag_verdict};
ghost use Rattle.records.specs.Check.{clusters_verdict, flows_verdict, checked};

pub use accepted::Accepted;
use site::{
    Cluster, Flow, Reason, Refusal, Site, Tag, bad_parent, flow_verdict, header_verdict,
    untagged_verdict,
};
use tags::is_taken;

// The verdict on the tag bytes of a cluster in line k: the first that is not from 21 to 7E is refused
// at its place, behind the four bytes before the tag.
fn tag_verdict(k: usize, tag: &Tag) -> Result<(), Refusal>
    requires { tag.now.len ≤ 64 }
    ensures { result ≡ tag_verdict k tag.now }
{
    for i in 0..tag.len {
        let b = tag.bytes[usize::from(i)];
        if (b < 33) | (b > 126) {
            return Err(Reason::BadTag.in_field(k, 4 + i));
        }
    }
    Ok(())
}

// The verdict on the fields of a cluster in line k.
fn cluster_verdict(k: usize, c: &Cluster) -> Result<(), Refusal>
    ensures { result ≡ cluster_verdict k c.now }
{
    untagged_verdict(k, c.order, c.tag.len)?;
    tag_verdict(k, &c.tag)
}

// The first of the clusters that is refused, by a field, by 5 or by 6.
fn check_clusters(clusters: &[Cluster]) -> Result<(), Refusal>
    requires { length clusters.now ≤ 64 }
    ensures { result ≡ clusters_verdict clusters.now (length clusters.now) }
{
    for (i, cluster) in clusters.iter().enumerate() {
        cluster_verdict(2 + i, cluster)?;
        if bad_parent(i, cluster.parent) {
            return Err(Reason::WrongParent.in_line(2 + i));
        }
        if is_taken(&clusters[..i], &cluster.tag) {
            return Err(Reason::RepeatedTag.in_line(2 + i));
        }
    }
    Ok(())
}

// The first of the flows that is refused by a field, between so many clusters.
fn check_flows(flows: &[Flow], clusters: u8) -> Result<(), Refusal>
    requires { length flows.now ≤ 128 }
    ensures { result ≡ flows_verdict clusters flows.now (length flows.now) }
{
    let first = 2 + usize::from(clusters);
    for (j, flow) in flows.iter().enumerate() {
        flow_verdict(first + j, clusters, *flow)?;
    }
    Ok(())
}

// The verdict on records: 10 to 14, 5 or 6 with the line that the record would have, and a field's
// place in that line. What stands behind the counts and tag lengths is not looked at.
pub fn check(site: &Site) -> Result<(), Refusal>
    ensures { result ≡ checked site.now }
{
    header_verdict(1, 1, site.cluster_count, site.flow_count)?;
    check_clusters(site.counted_clusters())?;
    check_flows(site.counted_flows(), site.cluster_count)
}
