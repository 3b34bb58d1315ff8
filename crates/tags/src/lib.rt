// Tags (docs/FORMATS.md, "Site text", "Refusal numbers", 6): how many bytes of one count, whether two
// are the same, and the tag of a line, read at full length.
#![tactic(auto)]

ghost use Rattle.std.specs.Prelude.{◌≡◌, ◌+◌, ◌/◌, min, length};
ghost use Rattle.site.specs.Lines.{tag_at};
ghost use Rattle.site.specs.Records.{same_tag, tag_taken};
ghost use Rattle.tags.specs.TagBytes.{tag_bytes};

use hexbytes::Line;
use site::{Cluster, Tag};

// How many bytes of a tag count: its length, and never more than there are.
pub fn counted(len: u8) -> usize
    ensures { result ≡ min len 64 }
{
    usize::from(len).min(64)
}

// Whether two tags have the same length and the same bytes up to it. No `impl PartialEq`: that would
// have to stand in crate site, and the edits that try this comparison stand in this crate.
pub fn same_tag(a: &Tag, b: &Tag) -> bool
    ensures { result ≡ same_tag a.now b.now }
{
    let n = counted(a.len);
    a.len == b.len && a.bytes[..n] == b.bytes[..n]
}

// Whether one of these clusters has a tag.
pub fn is_taken(clusters: &[Cluster], tag: &Tag) -> bool
    ensures { result ≡ tag_taken clusters.now (length clusters.now) tag.now }
{
    clusters.iter().any(|cluster| same_tag(&cluster.tag, tag))
}

// The 64 bytes behind the first four of a line: a tag, and what stands behind it.
fn tag_bytes(bytes: &[u8; 68]) -> [u8; 64]
    ensures { result ≡ tag_bytes bytes.now }
{
    let mut tag = [0; 64];
    for (i, byte) in tag.iter_mut().enumerate() {
        *byte = bytes[4 + i];
    }
    tag
}

// The tag of a cluster line, `len` bytes with zeros behind them.
pub fn tag_of(line: &Line, len: u8) -> Tag
    requires { length line.now.chars.now / 2 ≡ 4 + len }
    ensures { result ≡ tag_at line.now.chars.now 4 len }
{
    Tag {
        bytes: tag_bytes(&line.bytes),
        len,
    }
}
