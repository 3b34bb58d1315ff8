// The lines of a plan text, whoever wrote it (docs/FORMATS.md, "Plan text", "Checking a plan"): which
// of them break the layout, and what the others say.
#![tactic(auto)]

ghost use Rattle.std.specs.Prelude.{◌≡◌, true, ◌&&◌, ℕ, ◌+◌, ◌*◌, ◌≤◌, ◌<◌, length as size, get_or, take, ◌↔◌, IsSome, IfSome};
ghost use Rattle.hexline.specs.Digits.{is_digit, digit, byte_at, number_at};
ghost use Rattle.hexline.specs.Loops.{every};
ghost use Rattle.model.specs.Orders.{largest};
ghost use Rattle.planlines.specs.PlanFront.{BeginsWhole, front_in, tag_digits, written_at, half_at};
ghost use Rattle.planlines.specs.PlanLines.{header_in, describes as describes_it};

use model::Order;
use site::{Cluster, Tag};

// What the first line of a plan says.
#[derive(Clone, Copy, Debug, PartialEq, Eq)]
pub struct PlanHeader {
    pub order: u8,
    pub clusters: u8,
}

// What a cluster's line of a plan says; the tag is kept beside, by its length.
#[derive(Clone, Copy, Debug, PartialEq, Eq)]
pub struct PlanLine {
    pub number: u8,
    pub start: u32,
    pub length: u32,
    pub len: u8,
}

// The digits of a cluster's line before its tag.
const UNTAGGED: usize = 22;

// What the first line says, if it keeps the layout; `ended` says whether an LF ends it.
pub fn header_line(line: &[u8], ended: bool) -> Option<PlanHeader>
    ensures { result ≡ header_in (record { chars = line.now; ended = ended }) }
{
    if line.len() != 8 || !ended || !hexbytes::are_digits(line, 0, 8) {
        return None;
    }
    if hexline::byte_at(line, 0) != 0x81 || hexline::byte_at(line, 1) != 1 {
        return None;
    }
    Some(PlanHeader {
        order: hexline::byte_at(line, 2),
        clusters: hexline::byte_at(line, 3),
    })
}

// A text whose first 22 characters are digits.
#[derive(Drop)]
struct Front<'a> {
    rest: &'a [u8],
    ghost whole: { BeginsWhole rest.now },
}

impl<'a> Front<'a> {
    // Two blocks of sixteen characters, which overlap, each tested as a whole.
    fn new(rest: &'a [u8]) -> Option<Self>
        ensures whole { IsSome result ↔ BeginsWhole rest.now }
        ensures same { IfSome result (λ front. front.rest.now ≡ rest.now) }
    {
        if rest.len() < UNTAGGED {
            return None;
        }
        if !(hexbytes::are_digits(rest, 0, 16) & hexbytes::are_digits(rest, 6, 16)) {
            return None;
        }
        Some(Self { rest })
    }

    // Byte k of such a text, without a test of its digits.
    fn byte(&self, k: usize) -> u8
        requires { k < 11 }
        ensures { result ≡ byte_at self.now.rest.now k }
    {
        hexbytes::nibble(self.rest[2 * k]) * 16 + hexbytes::nibble(self.rest[2 * k + 1])
    }

    // The four bytes from byte k on, as a number.
    fn number(&self, k: usize) -> u32
        requires { k < 8 }
        ensures { result ≡ number_at self.now.rest.now k 4 }
    {
        u32::from_be_bytes([
            self.byte(k),
            self.byte(k + 1),
            self.byte(k + 2),
            self.byte(k + 3),
        ])
    }
}

// What the first line of `rest` says, up to its tag, if it keeps the layout: it is not looked for its
// end, but ends where its L says, with an LF there. Whether the tag has digits only is not asked
// (`is_tag_whole`, `describes`).
pub fn front_line(rest: &[u8]) -> Option<PlanLine>
    ensures { result ≡ front_in rest.now }
{
    let front = Front::new(rest)?;
    if front.byte(0) != 0x82 {
        return None;
    }
    let len = front.byte(10);
    if rest.get(UNTAGGED + 2 * usize::from(len)) != Some(&b'\n') {
        return None;
    }
    Some(PlanLine {
        number: front.byte(1),
        start: front.number(2),
        length: front.number(6),
        len,
    })
}

// Whether the tag of such a line, `len` bytes of it, has digits only.
pub fn is_tag_whole(rest: &[u8], len: u8) -> bool
    requires { 22 + 2 * len ≤ size rest.now }
    ensures { result ≡ tag_digits rest.now len }
{
    hexbytes::are_digits(rest, UNTAGGED, 2 * usize::from(len))
}

// The two halves of each byte, the high one first.
fn halves(bytes: &[u8; 64]) -> [u8; 128]
    ensures { (k : ℕ) → k < 128 → get_or result k 0 ≡ half_at bytes.now k }
{
    let mut out = [0; 128];
    for (i, b) in bytes.iter().enumerate() {
        out[2 * i] = b / 16;
        out[2 * i + 1] = b % 16;
    }
    out
}

// Whether the digits of a tag's bytes stand behind those before a line's tag. No digit ends the walk, and
// the tag's halves stand as its digits do, so that both are compared in blocks.
fn is_written(rest: &[u8], tag: &Tag) -> bool
    requires { (tag.now.len ≤ 64) × (22 + 2 * tag.now.len ≤ size rest.now) }
    ensures { result ≡ every tag.now.len (λ i. written_at rest.now (22 + 2 * i) (get_or tag.now.bytes i 0)) }
{
    let n = 2 * usize::from(tag.len);
    let digits = halves(&tag.bytes);
    let mut same = true;
    for (&c, &half) in rest[UNTAGGED..].iter().zip(&digits[..n]) {
        same &= c == hexroom::hex_of(half);
    }
    same
}

// Whether the tag of such a line has digits only, and the line the length and the tag of a cluster. A
// tag that is the cluster's is made of digits, so none of them is asked for that.
pub fn describes(cluster: &Cluster, rest: &[u8], length: u32, len: u8) -> bool
    requires order_le_largest { (cluster.now.order ≤ largest) × (cluster.now.tag.len ≤ 64) × ((i : ℕ) → i < cluster.now.tag.len → get_or cluster.now.tag.bytes i 0 < 256) }
    requires len_bound { (22 + 2 * len ≤ size rest.now) × (length ≡ number_at rest.now 6 4) × (len ≡ byte_at rest.now 10) }
    ensures { result ≡ (tag_digits rest.now len && describes_it (take (22 + 2 * len) rest.now) cluster.now) }
{
    length == Order::new(cluster.order).portion()
        && len == cluster.tag.len
        && is_written(rest, &cluster.tag)
}
