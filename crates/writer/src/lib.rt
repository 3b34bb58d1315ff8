// The site writer: the text of a site's records, into a room that the caller lends.
#![tactic(auto)]

ghost use Rattle.std.specs.Prelude.{◌≡◌, List, ℕ, ◌+◌, ◌*◌, ◌≤◌, length, take};
ghost use Rattle.hexline.specs.Digits.{line_of};
ghost use Rattle.hexroom.specs.Listing.{lines_of};
ghost use Rattle.hexroom.specs.Room.{put, handed};
ghost use Rattle.records.specs.Check.{checked};
ghost use Rattle.writer.specs.Text.{header_bytes, cluster_bytes, flow_bytes, text_of, fitting, written, room_after};

use hexroom::Field;
use records::Accepted;
use site::{Cluster, Flow, Reason, Refusal, Site, Tag};

// Writes the header line at the room's start, and gives the place behind it.
fn put_header(room: &mut [u8], clusters: u8, flows: u8) -> usize
    requires { length (line_of (header_bytes clusters flows)) ≤ length room.old }
    ensures { (result ≡ length (line_of (header_bytes clusters flows))) × (room.new ≡ put room.old 0 (line_of (header_bytes clusters flows))) }
{
    let fields = [
        Field::byte(1),
        Field::byte(1),
        Field::byte(clusters),
        Field::byte(flows),
    ];
    hexroom::put_line(room, 0, &fields, b"")
}

// The bytes of a tag that count.
fn counted_bytes(tag: &Tag) -> &[u8]
    ensures { (result.now ≡ take tag.now.len tag.now.bytes) × (length result.now ≤ 64) }
{
    &tag.bytes[..tags::counted(tag.len)]
}

// A record with a line of its own.
trait Row {
    // The bytes of its line.
    ghost bytes: { Self → List ℕ };

    // How many bytes of the text its line takes.
    fn size(&self) -> usize
        ensures { (result ≡ length (line_of (bytes self.now))) × (result ≤ 137) };

    // Writes its line at `at`, and gives the place behind it.
    fn put_line(&self, room: &mut [u8], at: usize) -> usize
        requires { at + length (line_of (bytes self.now)) ≤ length room.old }
        ensures { (result ≡ at + length (line_of (bytes self.now))) × (room.new ≡ put room.old at (line_of (bytes self.now))) };
}

impl Row for Cluster {
    ghost bytes = { cluster_bytes };

    fn size(&self) -> usize {
        9 + 2 * counted_bytes(&self.tag).len()
    }

    fn put_line(&self, room: &mut [u8], at: usize) -> usize {
        let fields = [
            Field::byte(2),
            Field::byte(self.parent),
            Field::byte(self.order),
            Field::byte(self.tag.len),
        ];
        hexroom::put_line(room, at, &fields, counted_bytes(&self.tag))
    }
}

impl Row for Flow {
    ghost bytes = { flow_bytes };

    fn size(&self) -> usize {
        23
    }

    fn put_line(&self, room: &mut [u8], at: usize) -> usize {
        let fields = [
            Field::byte(3),
            Field::new(1, u64::from(self.source)),
            Field::new(1, u64::from(self.sink)),
            Field::new(4, u64::from(self.period)),
            Field::new(4, u64::from(self.deadline)),
        ];
        hexroom::put_line(room, at, &fields, b"")
    }
}

// How many bytes the lines of rows take.
fn size_of<R: Row>(rows: &[R]) -> usize
    requires { length rows.now ≤ 128 }
    ensures { (result ≡ length (lines_of R.bytes rows.now)) × (result ≤ 137 * length rows.now) }
{
    let mut size: usize = 0;
    for row in rows {
        size += row.size();
    }
    size
}

// Writes the lines of rows at `at`, and gives the place behind them.
fn put_rows<R: Row>(room: &mut [u8], at: usize, rows: &[R]) -> usize
    requires { at + length (lines_of R.bytes rows.now) ≤ length room.old }
    ensures { (result ≡ at + length (lines_of R.bytes rows.now)) × (room.new ≡ put room.old at (lines_of R.bytes rows.now)) }
{
    let mut to = at;
    for row in rows {
        to = row.put_line(room, to);
    }
    to
}

// Writes the text of records that were accepted, or refuses by 9 before the first byte where the
// room is shorter than the text.
fn put_site(room: &mut [u8], records: Accepted) -> Result<usize, Refusal>
    ensures { (result ≡ fitting (text_of records.entry.site.now) (length room.old)) × (room.new ≡ handed (text_of records.entry.site.now) room.old) }
{
    let clusters = records.clusters();
    let flows = records.flows();
    let size = 9 + size_of(clusters) + size_of(flows);
    if room.len() < size {
        return Err(Reason::ShortRoom.in_line(0));
    }
    let behind_header = put_header(room, records.site.cluster_count, records.site.flow_count);
    let behind_clusters = put_rows(room, behind_header, clusters);
    Ok(put_rows(room, behind_clusters, flows))
}

// Writes the text of a site's records into the room, and answers its length. Records that `check`
// refuses are refused alike, and a room shorter than the text by 9 with line 0: a refusal leaves the
// room as it was. The bytes behind the text stay in any case.
#[tactic(auto, unfolding(crate::specs::Text::written, crate::specs::Text::room_after))]
pub fn write(site: &Site, room: &mut [u8]) -> Result<usize, Refusal>
    ensures { (result ≡ written (checked site.now) (text_of site.now) (length room.old)) × (room.new ≡ room_after (checked site.now) (text_of site.now) room.old) }
{
    records::check(site)?;
    put_site(room, Accepted { site })
}
