// The fields of a record, whether it was read from a line or handed in: the first that is out of
// range gives the number and the place of the refusal (docs/FORMATS.md, "The place").
ghost use Rattle.std.specs.Prelude.{◌≡◌};
ghost use Rattle.site.specs.Fields.{header_verdict, untagged_verdict, flow_verdict};
ghost use Rattle.site.specs.Records.{wrong_parent};

use crate::{Flow, MOST_CLUSTERS, MOST_FLOWS, MOST_TAG, MOST_TIME, Reason, Refusal};
use model::Order;

// The verdict on the fields of a header in line k.
pub fn header_verdict(k: usize, version: u8, clusters: u8, flows: u8) -> Result<(), Refusal>
    ensures { result ≡ header_verdict k version clusters flows }
{
    if version != 1 {
        return Err(Reason::BadHeader.in_field(k, 1));
    }
    if (clusters < 1) | (clusters > MOST_CLUSTERS) {
        return Err(Reason::BadHeader.in_field(k, 2));
    }
    if flows > MOST_FLOWS {
        return Err(Reason::BadHeader.in_field(k, 3));
    }
    Ok(())
}

// The verdict on the fields of a cluster in line k that stand before its tag.
pub fn untagged_verdict(k: usize, order: u8, len: u8) -> Result<(), Refusal>
    ensures { result ≡ untagged_verdict k order len }
{
    if order > Order::LARGEST {
        return Err(Reason::BadOrder.in_field(k, 2));
    }
    if (len < 1) | (len > MOST_TAG) {
        return Err(Reason::BadTag.in_field(k, 3));
    }
    Ok(())
}

// The verdict on the fields of a flow in line k, between so many clusters.
pub fn flow_verdict(k: usize, clusters: u8, f: Flow) -> Result<(), Refusal>
    ensures { result ≡ flow_verdict k clusters f }
{
    let count = u16::from(clusters);
    if f.source >= count {
        return Err(Reason::BadEnd.in_field(k, 1));
    }
    if f.sink >= count {
        return Err(Reason::BadEnd.in_field(k, 2));
    }
    if (f.period < 1) | (f.period > MOST_TIME) {
        return Err(Reason::BadTime.in_field(k, 3));
    }
    if (f.deadline < 1) | (f.deadline > MOST_TIME) {
        return Err(Reason::BadTime.in_field(k, 7));
    }
    Ok(())
}

// Whether the parent of cluster i is wrong: the root's is 255, another's is a lower number.
pub fn bad_parent(i: usize, parent: u8) -> bool
    ensures { result ≡ wrong_parent i parent }
{
    if i == 0 {
        parent != 255
    } else {
        i <= usize::from(parent)
    }
}
