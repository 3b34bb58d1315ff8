// The lines of the plan text (docs/FORMATS.md, "Plan text"), into a room that the caller lends.
#![tactic(auto)]

ghost use Rattle.std.specs.Prelude.{◌≡◌, ◌+◌, ◌≤◌, length as size};
ghost use Rattle.hexline.specs.Digits.{line_of};
ghost use Rattle.hexroom.specs.Room.{put as put_at};
ghost use Rattle.plantext.specs.PlanText.{plan_header, cluster_line};

use hexroom::Field;
use site::Tag;

// Writes the header line at the room's start, and gives the place behind it.
#[tactic(auto, unfolding(crate::specs::PlanText::plan_header))]
pub fn put_header(room: &mut [u8], order: u8, clusters: u8) -> usize
    requires { size (line_of (plan_header order clusters)) ≤ size room.old }
    ensures { (result ≡ size (line_of (plan_header order clusters))) × (room.new ≡ put_at room.old 0 (line_of (plan_header order clusters))) }
{
    let fields = [
        Field::byte(0x81),
        Field::byte(1),
        Field::byte(order),
        Field::byte(clusters),
    ];
    hexroom::put_line(room, 0, &fields, b"")
}

// Writes the line of a cluster at `at`, and gives the place behind it.
#[tactic(auto, unfolding(crate::specs::PlanText::cluster_line))]
pub fn put_cluster(
    room: &mut [u8],
    at: usize,
    cluster: u8,
    start: u32,
    portion: u32,
    tag: &Tag,
) -> usize
    requires { (tag.now.len ≤ 64) × (at + size (line_of (cluster_line cluster start portion tag.now)) ≤ size room.old) }
    ensures { (result ≡ at + size (line_of (cluster_line cluster start portion tag.now))) × (room.new ≡ put_at room.old at (line_of (cluster_line cluster start portion tag.now))) }
{
    let fields = [
        Field::byte(0x82),
        Field::byte(cluster),
        Field::new(4, u64::from(start)),
        Field::new(4, u64::from(portion)),
        Field::byte(tag.len),
    ];
    hexroom::put_line(room, at, &fields, &tag.bytes[..usize::from(tag.len)])
}
