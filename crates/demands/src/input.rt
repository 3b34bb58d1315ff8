// The cases, from standard input.
ghost use Rattle.std.specs.Prelude.{◌≤◌, ◌↔◌, IsTrue, All};
ghost use Rattle.demands.specs.declared.TheConstants.{MOST_BYTES};

use crate::MOST_BYTES;
use std::io::{ErrorKind, Read};
use std::{array, io};

// What the head line of a case says: how many bytes its text has, the room for a site's text and the
// room for a plan, which line is asked for, how many bytes the plan text to check has, and how many
// patches follow it.
#[derive(Drop)]
pub struct Head {
    pub text: usize,
    pub site_room: usize,
    pub plan_room: usize,
    pub line: usize,
    pub plan: usize,
    pub patches: usize,
    ghost in_space: { (text ≤ MOST_BYTES) × (site_room ≤ MOST_BYTES) × (plan_room ≤ MOST_BYTES) × (plan ≤ MOST_BYTES) },
}

// Whether there is space for each of these lengths.
fn all_fit(lengths: &[usize]) -> bool
    ensures { IsTrue result ↔ All (λ n. n ≤ MOST_BYTES) lengths.now }
{
    lengths.iter().all(|&n| n <= MOST_BYTES)
}

impl Head {
    // The head of a line of 44 digits and LF; none where it asks for a longer text or room than there
    // is space.
    pub fn new(line: [u8; 45]) -> Option<Self> {
        let [text, site_room, plan_room, asked, plan]: [usize; 5] = array::from_fn(
            |i| hexline::number_at(&line, 4 * i, 4) as usize,
        );
        if all_fit(&[text, site_room, plan_room, plan]) {
            Some(Head {
                text,
                site_room,
                plan_room,
                line: asked,
                plan,
                patches: hexline::number_at(&line, 20, 2) as usize,
            })
        } else {
            None
        }
    }
}

// Fills the space from the input, and gives it back; none where the input ends before.
fn read_into<'a>(input: &mut impl Read, space: &'a mut [u8]) -> io::Result<Option<&'a [u8]>> {
    match input.read_exact(space) {
        Ok(()) => Ok(Some(space)),
        Err(e) if e.kind() == ErrorKind::UnexpectedEof => Ok(None),
        Err(e) => Err(e),
    }
}

// The next N bytes of the input; none where it ends before.
pub fn read_array<const N: usize>(input: &mut impl Read) -> io::Result<Option<[u8; N]>> {
    let mut bytes = [0; N];
    Ok(read_into(input, &mut bytes)?.is_some().then_some(bytes))
}

// Fills the space from the input, reads the LF behind it, and gives it back; none where the input ends
// before.
pub fn read_part<'a>(input: &mut impl Read, space: &'a mut [u8]) -> io::Result<Option<&'a [u8]>> {
    let Some(part) = read_into(input, space)? else {
        return Ok(None);
    };
    let lf: Option<[u8; 1]> = read_array(input)?;
    Ok(lf.map(|_| part))
}
