// Records that the check accepts.
ghost use Rattle.std.specs.Prelude.{◌≡◌, ◌≤◌, length, take};
ghost use Rattle.site.specs.Refusals.{accepted};
ghost use Rattle.records.specs.Check.{checked};

use site::{Cluster, Flow, Site};

// The records of a site that the check accepts, wherever that is known from.
#[derive(Clone, Copy, Drop)]
pub struct Accepted<'a> {
    pub site: &'a Site,
    ghost accepted: { checked site.now ≡ accepted },
}

impl<'a> Accepted<'a> {
    // The clusters that count.
    pub fn clusters(self) -> &'a [Cluster]
        ensures clusters { result.now ≡ take self.entry.site.now.cluster_count self.entry.site.now.clusters }
        ensures count { length result.now ≡ self.entry.site.now.cluster_count }
        ensures few { length result.now ≤ 64 }
    {
        self.site.counted_clusters()
    }

    // The flows that count.
    pub fn flows(self) -> &'a [Flow]
        ensures flows { result.now ≡ take self.entry.site.now.flow_count self.entry.site.now.flows }
        ensures count { length result.now ≡ self.entry.site.now.flow_count }
        ensures few { length result.now ≤ 128 }
    {
        self.site.counted_flows()
    }
}
