// The line reader: what a line of a site's text is.
ghost use Rattle.std.specs.Prelude.{◌≡◌, true, ◌↔◌, ◌+◌, ◌*◌, ◌≤◌, length, IsNone, IfSome};
ghost use Rattle.site.specs.Kinds.{first_byte, kind_number};
ghost use Rattle.site.specs.Lines.{printable_line, FirstUnprintable};
ghost use Rattle.site.specs.Table.{due, fields_of, entry_of};

use crate::fields::{bad_parent, flow_verdict, header_verdict, untagged_verdict};
use crate::{Counts, Entry, Flow, Kind, MOST_DIGITS, Reason, Refusal};
use hexbytes::{FormedLine, Line};

impl Kind {
    // The first byte of its lines.
    pub fn first_byte(self) -> u8
        ensures { result ≡ first_byte self }
    {
        self as u8
    }
}

impl Counts {
    // The kind due at line k, after a header that says so; none where no line is due.
    pub fn due_at(self, k: usize) -> Option<Kind>
        ensures { kind_number result ≡ due k self.clusters self.flows }
    {
        let last = 1 + usize::from(self.clusters);
        if k <= 1 {
            Some(Kind::Header)
        } else if k <= last {
            Some(Kind::Cluster)
        } else if k <= last + usize::from(self.flows) {
            Some(Kind::Flow)
        } else {
            None
        }
    }
}

// Whether the tag bytes of a cluster line are all from 21 to 7E.
fn is_printable(line: &Line, len: u8) -> bool
    requires { 8 + 2 * len ≤ length line.now.chars.now }
    ensures { result ≡ printable_line line.now.chars.now len }
{
    let mut all = true;
    for i in 0..usize::from(len) {
        let b = line.byte(4 + i);
        all = all & !((b < 33) | (b > 126));
    }
    all
}

// Which of the tag bytes of a cluster line is the first that is not from 21 to 7E, counted from 0. They are
// tested as a whole first: only a line that is refused for one is walked.
fn first_unprintable(line: &Line, len: u8) -> Option<u8>
    requires { 8 + 2 * len ≤ length line.now.chars.now }
    ensures none { IsNone result ↔ (printable_line line.now.chars.now len ≡ true) }
    ensures some { IfSome result (FirstUnprintable line.now.chars.now len) }
{
    if is_printable(line, len) {
        return None;
    }
    for i in 0..len {
        let b = line.byte(4 + usize::from(i));
        if (b < 33) | (b > 126) {
            return Some(i);
        }
    }
    None
}

fn header_line(line: &Line, k: usize) -> Result<Entry, Refusal>
    ensures { result ≡ fields_of 1 k 0 line.now.chars.now }
{
    if line.len() != 4 {
        return Err(Reason::WrongLength.in_line(k));
    }
    let clusters = line.byte(2);
    let flows = line.byte(3);
    header_verdict(k, line.byte(1), clusters, flows)?;
    Ok(Entry::Header(Counts { clusters, flows }))
}

fn cluster_line(line: &Line, k: usize) -> Result<Entry, Refusal>
    requires { 2 ≤ k }
    ensures { result ≡ fields_of 2 k 0 line.now.chars.now }
{
    if line.len() < 4 {
        return Err(Reason::WrongLength.in_line(k));
    }
    let len = line.byte(3);
    if line.len() != 4 + usize::from(len) {
        return Err(Reason::WrongLength.in_line(k));
    }
    let order = line.byte(2);
    untagged_verdict(k, order, len)?;
    if let Some(i) = first_unprintable(line, len) {
        return Err(Reason::BadTag.in_field(k, 4 + i));
    }
    let parent = line.byte(1);
    if bad_parent(k - 2, parent) {
        return Err(Reason::WrongParent.in_line(k));
    }
    Ok(Entry::Cluster {
        parent,
        order,
        place: 4,
        len,
    })
}

fn flow_line(line: &Line, k: usize, clusters: u8) -> Result<Entry, Refusal>
    ensures { result ≡ fields_of 3 k clusters line.now.chars.now }
{
    if line.len() != 11 {
        return Err(Reason::WrongLength.in_line(k));
    }
    let flow = Flow {
        source: u16::from(line.byte(1)),
        sink: u16::from(line.byte(2)),
        period: line.four_bytes(3),
        deadline: line.four_bytes(7),
    };
    flow_verdict(k, clusters, flow)?;
    Ok(Entry::Flow(flow))
}

// What a well-formed line is as line k, after a header with these counts.
pub fn entry_of_line(formed: &FormedLine, k: usize, counts: Counts) -> Result<Entry, Refusal>
    ensures { result ≡ entry_of k counts.clusters counts.flows (record { chars = formed.now.line.chars.now; ended = true }) }
{
    let line = &formed.line;
    let Some(kind) = counts.due_at(k) else {
        return Err(Reason::WrongKind.in_line(k));
    };
    if line.byte(0) != kind.first_byte() {
        return Err(Reason::WrongKind.in_line(k));
    }
    match kind {
        Kind::Header => header_line(line, k),
        Kind::Cluster => cluster_line(line, k),
        Kind::Flow => flow_line(line, k, counts.clusters),
    }
}

// What any line is as line k; `ended` says whether an LF ends it.
pub fn read_line(chars: &[u8], ended: bool, k: usize, counts: Counts) -> Result<Entry, Refusal>
    ensures { result ≡ entry_of k counts.clusters counts.flows (record { chars = chars.now; ended = ended }) }
{
    let Some(formed) = Line::decode(chars, ended, MOST_DIGITS) else {
        return Err(Reason::Malformed.in_line(k));
    };
    entry_of_line(&formed, k, counts)
}
