// The reader (docs/FORMATS.md, "Site text", "Refusal numbers"): any text in, its records by value or
// its refusal with number, line and place out.
#![tactic(auto)]

mod prints;
mod rows;

ghost use Rattle.std.specs.Prelude.{◌≡◌, OnOk};
ghost use Rattle.reader.specs.Reading.{read_text, records_of};
ghost use Rattle.site.specs.Records.{no_site};

use hexbytes::Line;
use prints::{print_of, unlike};
use rows::Rows;
use site::{Cluster, Counts, Entry, Flow, MOST_DIGITS, Reason, Refusal, Site, Tag, entry_of_line};
use tags::{is_taken, tag_of};

const NO_CLUSTER: Cluster = Cluster {
    parent: 0,
    order: 0,
    tag: Tag {
        bytes: [0; 64],
        len: 0,
    },
};

const NO_FLOW: Flow = Flow {
    source: 0,
    sink: 0,
    period: 0,
    deadline: 0,
};

// Records that are all zero.
pub const NO_SITE: Site = Site {
    flows: [NO_FLOW; 128],
    cluster_count: 0,
    clusters: [NO_CLUSTER; 64],
    flow_count: 0,
};

// A text's records, all zero after a refusal, and the verdict.
#[derive(Drop)]
pub struct Reading {
    pub site: Site,
    pub verdict: Result<(), Refusal>,
}

// Reads the records of a text into `site`, which is all zero, or gives the refusal of its first bad
// line. So they lie in the caller's memory alone: a result that holds them would be a second copy.
pub fn read_into(text: &[u8], site: &mut Site) -> Result<(), Refusal>
    requires { site.old ≡ no_site }
    ensures verdict { result ≡ (read_text text.now).verdict }
    ensures records { OnOk result (site.new ≡ (read_text text.now).site) }
{
    let mut counts = Counts {
        clusters: 0,
        flows: 0,
    };
    let mut prints = [0u32; 64];
    let mut k: usize = 1;
    for row in (Rows { text }) {
        let Some(formed) = Line::decode(row.chars, row.ended, MOST_DIGITS) else {
            return Err(Reason::Malformed.in_line(k));
        };
        let entry = entry_of_line(&formed, k, counts)?;
        match entry {
            Entry::Header(header) => counts = header,
            Entry::Cluster {
                parent,
                order,
                place: _,
                len,
            } => {
                let tag = tag_of(&formed.line, len);
                let print = print_of(&tag.bytes);
                let i = k - 2;
                let earlier = &site.clusters[..i];
                if !unlike(&prints[..i], print) && is_taken(earlier, &tag) {
                    return Err(Reason::RepeatedTag.in_line(k));
                }
                site.clusters[i] = Cluster { parent, order, tag };
                prints[i] = print;
            }
            Entry::Flow(flow) => site.flows[k - 2 - usize::from(counts.clusters)] = flow,
        }
        k += 1;
    }
    if counts.due_at(k).is_some() {
        return Err(Reason::WrongKind.in_line(k));
    }
    site.cluster_count = counts.clusters;
    site.flow_count = counts.flows;
    Ok(())
}

// The records of a text, or the refusal of its first bad line.
pub fn records(text: &[u8]) -> Result<Site, Refusal>
    ensures { result ≡ records_of (read_text text.now) }
{
    let mut site = NO_SITE;
    read_into(text, &mut site)?;
    Ok(site)
}

// The records of a text, or the refusal of its first bad line with records that are all zero. They are
// read where they are handed out, since taken from `records` they would be moved twice.
pub fn read(text: &[u8]) -> Reading
    ensures { result ≡ read_text text.now }
{
    let mut reading = Reading {
        site: NO_SITE,
        verdict: Ok(()),
    };
    reading.verdict = read_into(text, &mut reading.site);
    if reading.verdict.is_err() {
        reading.site = NO_SITE;
    }
    reading
}
