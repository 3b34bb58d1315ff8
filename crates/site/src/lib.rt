// Sites (docs/FORMATS.md, "Site text", "Refusal numbers"): the records, their fields and the line
// reader.
#![tactic(auto)]

mod fields;
mod line;
mod refusal;

pub use fields::{bad_parent, flow_verdict, header_verdict, untagged_verdict};
pub use line::{entry_of_line, read_line};
pub use refusal::{NO_PLACE, Reason, Refusal};

// The limits of docs/FORMATS.md.
pub const MOST_CLUSTERS: u8 = 64;

pub const MOST_FLOWS: u8 = 128;

pub const MOST_TAG: u8 = 64;

pub const MOST_TIME: u32 = 1000000000;

pub const MOST_DIGITS: usize = 136;

// A tag, kept whole: its bytes and how many of them count.
#[derive(Clone, Copy)]
pub struct Tag {
    pub bytes: [u8; 64],
    pub len: u8,
}

// A cluster: the number of its parent, 255 for the root's, its superframe order and its tag.
#[derive(Clone, Copy)]
pub struct Cluster {
    pub parent: u8,
    pub order: u8,
    pub tag: Tag,
}

// A flow between two clusters, with its required period and its deadline in symbols. The clusters'
// numbers have two bytes each, so that a flow has no gap and all 128 are cleared as one block.
#[derive(Clone, Copy)]
pub struct Flow {
    pub source: u16,
    pub sink: u16,
    pub period: u32,
    pub deadline: u32,
}

// A site: of its clusters and flows, as many count as the two numbers say. A number stands between
// the arrays and one after them, so that the compiler takes the struct apart and moves each array by
// itself, in less stack.
#[derive(Clone, Copy)]
pub struct Site {
    pub flows: [Flow; 128],
    pub cluster_count: u8,
    pub clusters: [Cluster; 64],
    pub flow_count: u8,
}

impl Site {
    ghost use Rattle.std.specs.Prelude.{◌≡◌, ◌≤◌, length, take};

    // The clusters that count.
    pub fn counted_clusters(&self) -> &[Cluster]
        requires { self.now.cluster_count ≤ 64 }
        ensures clusters { result.now ≡ take self.now.cluster_count self.now.clusters }
        ensures count { length result.now ≡ self.now.cluster_count }
    {
        &self.clusters[..usize::from(self.cluster_count)]
    }

    // The flows that count.
    pub fn counted_flows(&self) -> &[Flow]
        requires { self.now.flow_count ≤ 128 }
        ensures flows { result.now ≡ take self.now.flow_count self.now.flows }
        ensures count { length result.now ≡ self.now.flow_count }
    {
        &self.flows[..usize::from(self.flow_count)]
    }
}

// How many clusters and flows a site has, as its header says.
#[derive(Clone, Copy, Debug, PartialEq, Eq)]
pub struct Counts {
    pub clusters: u8,
    pub flows: u8,
}

// The kind of a line, by its first byte.
#[derive(Clone, Copy, Debug, PartialEq, Eq)]
pub enum Kind {
    Header = 1,
    Cluster = 2,
    Flow = 3,
}

// What a line is that is taken. A tag is kept beside, as the byte of the line at which it begins and its
// length.
#[derive(Clone, Copy)]
pub enum Entry {
    Header(Counts),
    Cluster {
        parent: u8,
        order: u8,
        place: usize,
        len: u8,
    },
    Flow(Flow),
}
