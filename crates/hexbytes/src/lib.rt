// A line decoded once, from digits into bytes (docs/FORMATS.md, "Site text"), in blocks of sixteen
// or thirty-two characters: no character ends a block early and none is looked up, so that a block
// is worked on as a whole. What a line is, is then read off the bytes.
#![tactic(auto)]

mod line;

ghost use Rattle.std.specs.Prelude.{◌≡◌, true, false, ◌+◌, ◌*◌, ◌/◌, ◌%◌, ◌≤◌, ◌<◌, length, get_or, replicate};
ghost use Rattle.hexline.specs.Digits.{is_digit, all_digits, byte_at};
ghost use Rattle.hexline.specs.Lines.{malformed};
ghost use Rattle.hexline.specs.Loops.{every, filled};
ghost use Rattle.hexbytes.specs.Blocks.{laid};
ghost use Rattle.hexbytes.specs.Decoded.{Decoded, nibble as nibble_of, pair_at, raw_at};

pub use line::{FormedLine, Line};

// The value of a digit, without a test; some number for another character.
pub fn nibble(c: u8) -> u8
    ensures { result ≡ nibble_of c }
{
    c % 16 + 9 * (c / 64)
}

// The byte of two values, the first one its high half.
fn pair(high: u8, low: u8) -> u8
    ensures { result ≡ high % 16 * 16 + low % 16 }
{
    high % 16 * 16 + low % 16
}

// Whether all characters are digits. None is left out, since a test that stops early takes them one
// by one.
fn all_digits(chars: &[u8]) -> bool
    ensures { result ≡ all_digits chars.now }
{
    chars
        .iter()
        .fold(true, |all, &c| all & hexline::is_digit(c))
}

// Whether the n characters from `at` on are digits.
pub fn are_digits(line: &[u8], at: usize, n: usize) -> bool
    requires { at + n ≤ length line.now }
    ensures { result ≡ every n (λ j. is_digit (get_or line.now (at + j) 0)) }
{
    all_digits(&line[at..at + n])
}

// The values of the characters from `at` on, as many as a block has.
fn nibbles<const CHARS: usize>(line: &[u8], at: usize) -> [u8; CHARS]
    requires { at + CHARS ≤ length line.now }
    ensures { result ≡ filled (λ j. nibble_of (get_or line.now (at + j) 0)) (replicate CHARS 0) CHARS }
{
    let mut values = [0u8; CHARS];
    for (j, value) in values.iter_mut().enumerate() {
        *value = nibble(line[at + j]);
    }
    values
}

// Stores the bytes of a block's values from `at` on.
fn store<const PAIRS: usize, const CHARS: usize>(
    values: &[u8; CHARS],
    at: usize,
    out: &mut [u8; 68],
)
    requires whole { CHARS ≡ 2 * PAIRS }
    requires room { at + PAIRS ≤ 68 }
    ensures { out.new ≡ laid (pair_at values.now) out.old at PAIRS }
{
    for j in 0..PAIRS {
        out[at + j] = pair(values[2 * j], values[2 * j + 1]);
    }
}

// A line of fewer than sixteen characters, byte by byte.
fn decode_few(line: &[u8], out: &mut [u8; 68]) -> bool
    requires { length line.now ≤ 136 }
    ensures { (result ≡ all_digits line.now) × (out.new ≡ filled (byte_at line.now) out.old (length line.now / 2)) }
{
    for i in 0..line.len() / 2 {
        out[i] = hexline::byte_at(line, i);
    }
    all_digits(line)
}

// Where the next block of n pairs begins, after i of them: at i, or so that it ends at n.
fn next_block<const PAIRS: usize>(n: usize, i: usize) -> usize
    requires some { 0 < PAIRS }
    requires whole { PAIRS ≤ n }
    requires left { i < n }
    ensures { (result ≤ i) × (i < result + PAIRS) × (result + PAIRS ≤ n) }
{
    i.min(n - PAIRS)
}

// A line of one block or more, block by block. The last block goes back so that it ends with the
// line, and may overlap those before: no step of a range.
fn decode_blocks<const PAIRS: usize, const CHARS: usize>(line: &[u8], out: &mut [u8; 68]) -> bool
    requires whole { CHARS ≡ 2 * PAIRS }
    requires some { 0 < PAIRS }
    requires long { CHARS ≤ length line.now }
    requires short { length line.now ≤ 136 }
    ensures { (result ≡ every (2 * (length line.now / 2)) (λ i. is_digit (get_or line.now i 0))) × (out.new ≡ filled (raw_at line.now) out.old (length line.now / 2)) }
{
    let n = line.len() / 2;
    let mut all = true;
    let mut i: usize = 0;
    while i < n {
        let at = next_block::<PAIRS>(n, i);
        all &= are_digits(line, 2 * at, CHARS);
        store::<PAIRS, CHARS>(&nibbles(line, 2 * at), at, out);
        i = at + PAIRS;
    }
    all
}

// Decodes a line of whole bytes, in blocks of sixteen pairs where it has as many: such a block fills
// two registers, and its bytes one. Gives whether all its characters are digits, and where they are,
// its bytes at the front of `out`, with what stood behind them left there.
fn decode(line: &[u8], out: &mut [u8; 68]) -> bool
    requires { (length line.now ≤ 136) × (length line.now % 2 ≡ 0) }
    ensures { (result ≡ all_digits line.now) × (result ≡ true → out.new ≡ filled (byte_at line.now) out.old (length line.now / 2)) }
{
    match line.len() {
        0..=15 => decode_few(line, out),
        16..=31 => decode_blocks::<8, 16>(line, out),
        _ => decode_blocks::<16, 32>(line, out),
    }
}
