// Writing lines of digits into a lent room (docs/FORMATS.md, "Site text"): digits two a byte,
// numbers with the high byte first, and one LF behind each line. The place to write at goes beside
// the room: of a part of it, or of a cursor, each caller would have to show that the rest stays.
#![tactic(auto)]

ghost use Rattle.std.specs.Prelude.{◌≡◌, cond, [], ◌∷◌, ◌++◌, ◌+◌, ◌*◌, ◌≤◌, ltb, length};
ghost use Rattle.hexline.specs.Digits.{hex_of, hexes, number_bytes, line_of};
ghost use Rattle.hexroom.specs.Fields.{bytes_of_fields};
ghost use Rattle.hexroom.specs.Room.{put};

// How far behind 0-9 the digits of ten and more stand: a choice between 0 and another number is one
// instruction for a row of bytes.
fn letter_gap(low: u8) -> u8
    ensures { (result ≡ cond (ltb low 10) 0 7) × (result ≤ 7) }
{
    if low < 10 { 0 } else { 7 }
}

// The digit of a value's lowest four bits.
pub fn hex_of(v: u8) -> u8
    ensures { result ≡ hex_of v }
{
    let low = v % 16;
    low + letter_gap(low) + 48
}

// Writes the two digits of a byte at `at`.
fn put_byte(room: &mut [u8], at: usize, b: u8)
    requires { at + 2 ≤ length room.old }
    ensures { room.new ≡ put room.old at (hexes (b ∷ [])) }
{
    room[at] = hex_of(b / 16);
    room[at + 1] = hex_of(b);
}

// Writes the digits of bytes at `at`, and gives the place behind them.
pub fn put_bytes(room: &mut [u8], at: usize, bytes: &[u8]) -> usize
    requires { at + 2 * length bytes.now ≤ length room.old }
    ensures { (result ≡ at + 2 * length bytes.now) × (room.new ≡ put room.old at (hexes bytes.now)) }
{
    for (i, &b) in bytes.iter().enumerate() {
        put_byte(room, at + 2 * i, b);
    }
    at + 2 * bytes.len()
}

// Writes the lowest `width` bytes of a number at `at`, high byte first, and gives the place behind
// them.
pub fn put_number(room: &mut [u8], at: usize, value: u64, width: usize) -> usize
    requires { at + 2 * width ≤ length room.old }
    ensures { (result ≡ at + 2 * width) × (room.new ≡ put room.old at (hexes (number_bytes width value))) }
{
    let mut rest = value;
    for i in (0..width).rev() {
        put_byte(room, at + 2 * i, (rest % 256) as u8);
        rest /= 256;
    }
    at + 2 * width
}

// A number in a line, and how many bytes it takes there.
#[derive(Clone, Copy)]
pub struct Field {
    pub width: usize,
    pub value: u64,
}

impl Field {
    // The lowest `width` bytes of a number.
    pub fn new(width: usize, value: u64) -> Self
        ensures { result ≡ record { width = width; value = value } }
    {
        Self { width, value }
    }

    // One byte.
    pub fn byte(value: u8) -> Self
        ensures { result ≡ record { width = 1; value = value } }
    {
        Self {
            width: 1,
            value: u64::from(value),
        }
    }
}

// Writes the fields one after the other at `at`, and gives the place behind them.
pub fn put_fields(room: &mut [u8], at: usize, fields: &[Field]) -> usize
    requires { at + 2 * length (bytes_of_fields fields.now) ≤ length room.old }
    ensures { (result ≡ at + 2 * length (bytes_of_fields fields.now)) × (room.new ≡ put room.old at (hexes (bytes_of_fields fields.now))) }
{
    let mut to = at;
    for field in fields {
        to = put_number(room, to, field.value, field.width);
    }
    to
}

// Writes a line at `at`: the fields, the bytes of the tail, and LF. Gives the place behind it.
#[tactic(auto, using(crate::specs::Room::fields_line_length))]
pub fn put_line(room: &mut [u8], at: usize, fields: &[Field], tail: &[u8]) -> usize
    requires { at + length (line_of (bytes_of_fields fields.now ++ tail.now)) ≤ length room.old }
    ensures { (result ≡ at + length (line_of (bytes_of_fields fields.now ++ tail.now))) × (room.new ≡ put room.old at (line_of (bytes_of_fields fields.now ++ tail.now))) }
{
    let behind = put_fields(room, at, fields);
    let end = put_bytes(room, behind, tail);
    room[end] = 10;
    end + 1
}
