// Plans the site on standard input: prints the plan text, or one line of 8F, refusal number, line and
// place. A site has at most 11,721 bytes, and the verdict on a longer text rests on its first 11,859
// (`verdict_in_11859` of crate roundtrip), so no more than that is read.
#![tactic(auto)]

ghost use Rattle.std.specs.Io.{ReadsAtMost};

use std::io;
use std::io::Read;

// Reads until the space is full or the input ends, and gives how many bytes were read.
// `read_to_end` needs an allocator, and `io::copy` into a slice does not say how far it came.
fn read_full(input: &mut impl Read, space: &mut [u8]) -> io::Result<usize>
    ensures { ReadsAtMost result space.new }
{
    let mut done = 0;
    while done < space.len() {
        match input.read(&mut space[done..])? {
            0 => break,
            n => done += n,
        }
    }
    Ok(done)
}

// Prints a refusal, handed over as 65,536 x number + line, with its place.
#[tactic(auto, unfolding(hexline::specs::Digits::line_of, hexline::specs::Digits::hexes, hexline::specs::Digits::field_bytes))]
fn refuse(rt: &impl Print, answer: u32, place: u32) -> io::Result<()> {
    let mut room = [0u8; 11];
    let [_, number, high, low] = answer.to_be_bytes();
    let [.., place] = place.to_be_bytes();
    hexroom::put_line(&mut room, 0, &[], &[0x8F, number, high, low, place]);
    rt.write_all(&room)
}

fn main(rt: HostRuntime) -> io::Result<()> {
    let mut space = [0u8; 11859];
    let mut room = [0u8; 9673];
    let n = read_full(&mut rt.stdin(), &mut space)?;
    let text = &space[..n];
    let answer = commission::cartheron_plan(text, &mut room);
    match room.get(..answer as usize) {
        Some(plan) => rt.write_all(plan),
        None => refuse(&rt, answer, commission::cartheron_place(text)),
    }
}
