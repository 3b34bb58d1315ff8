// Patches: fields of the records that are set anew, to values that a reader may never give.
use crate::input::read_array;
use site::{Cluster, Flow, Site};
use std::io;
use std::io::Read;

// A field of a cluster; a byte of the tag stands at the patch's place.
#[derive(Clone, Copy)]
enum ClusterField {
    Parent,
    Order,
    TagLength,
    TagByte,
}

// A field of a flow.
#[derive(Clone, Copy)]
enum FlowField {
    Source,
    Sink,
    Period,
    Deadline,
}

// A field of the records.
#[derive(Clone, Copy)]
enum Field {
    ClusterCount,
    FlowCount,
    Cluster(ClusterField),
    Flow(FlowField),
}

// The numbers are the places in FIELDS of tests/site_building.py, and each greater one is taken for
// the last.
impl From<u8> for Field {
    fn from(kind: u8) -> Self {
        match kind {
            0 => Field::ClusterCount,
            1 => Field::FlowCount,
            2 => Field::Cluster(ClusterField::Parent),
            3 => Field::Cluster(ClusterField::Order),
            4 => Field::Cluster(ClusterField::TagLength),
            5 => Field::Cluster(ClusterField::TagByte),
            6 => Field::Flow(FlowField::Source),
            7 => Field::Flow(FlowField::Sink),
            8 => Field::Flow(FlowField::Period),
            _ => Field::Flow(FlowField::Deadline),
        }
    }
}

// Which field of which record, and for a byte of a tag at which place, is set to what.
#[derive(Clone, Copy)]
struct Patch {
    field: Field,
    index: usize,
    place: usize,
    value: u32,
}

// The patch of a line of 14 digits and LF.
impl From<[u8; 15]> for Patch {
    fn from(line: [u8; 15]) -> Self {
        Patch {
            field: Field::from(hexline::byte_at(&line, 0)),
            index: usize::from(hexline::byte_at(&line, 1)),
            place: usize::from(hexline::byte_at(&line, 2)),
            value: hexline::number_at(&line, 3, 4) as u32,
        }
    }
}

impl Patch {
    // What it sets a field of one byte to.
    fn byte(&self) -> u8 {
        (self.value & 0xff) as u8
    }

    // What it sets a field of two bytes to.
    fn two_bytes(&self) -> u16 {
        (self.value & 0xffff) as u16
    }

    fn set_in_cluster(&self, cluster: &mut Cluster, field: ClusterField) {
        match field {
            ClusterField::Parent => cluster.parent = self.byte(),
            ClusterField::Order => cluster.order = self.byte(),
            ClusterField::TagLength => cluster.tag.len = self.byte(),
            ClusterField::TagByte => {
                if let Some(byte) = cluster.tag.bytes.get_mut(self.place) {
                    *byte = self.byte();
                }
            }
        }
    }

    fn set_in_flow(&self, flow: &mut Flow, field: FlowField) {
        match field {
            FlowField::Source => flow.source = self.two_bytes(),
            FlowField::Sink => flow.sink = self.two_bytes(),
            FlowField::Period => flow.period = self.value,
            FlowField::Deadline => flow.deadline = self.value,
        }
    }

    // Sets the field anew. A patch of a record that is not there changes nothing.
    fn apply(&self, site: &mut Site) {
        match self.field {
            Field::ClusterCount => site.cluster_count = self.byte(),
            Field::FlowCount => site.flow_count = self.byte(),
            Field::Cluster(field) => {
                if let Some(cluster) = site.clusters.get_mut(self.index) {
                    self.set_in_cluster(cluster, field);
                }
            }
            Field::Flow(field) => {
                if let Some(flow) = site.flows.get_mut(self.index) {
                    self.set_in_flow(flow, field);
                }
            }
        }
    }
}

// Sets fields anew by so many patches from the input, one after another; by fewer where it ends.
pub fn read_patches(input: &mut impl Read, site: &mut Site, count: usize) -> io::Result<()> {
    for _ in 0..count {
        let Some(line) = read_array(input)? else {
            break;
        };
        Patch::from(line).apply(site);
    }
    Ok(())
}
