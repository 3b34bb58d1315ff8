// Runs the clients of all public functions over the cases of standard input, and prints every
// answer. tests/demands.py says how a case and its answers look.
#![tactic(auto)]

mod answers;
mod clients;
mod input;
mod patches;

ghost use Rattle.std.specs.Prelude.{◌≤◌};
ghost use Rattle.demands.specs.declared.TheConstants.{MOST_BYTES};

use answers::{Answer, print_part};
use input::{Head, read_array, read_part};
use patches::read_patches;
use reader::Reading;
use site::Counts;
use std::io;
use std::io::Read;

// The most cases of a run, so that it ends, and the most bytes of a text and of a room.
const MOST_CASES: usize = 100000;

const MOST_BYTES: usize = 12288;

// Prints what was read, the parts shown for the line asked for and for the refusal's, and what the
// line asked for is by itself.
fn run_lines(rt: &impl Print, text: &[u8], reading: &Reading, asked: usize) -> io::Result<()> {
    reading.print(rt)?;
    let refused = match &reading.verdict {
        Ok(()) => 0,
        Err(refusal) => refusal.line(),
    };
    let part = clients::shown_line(text, asked);
    print_part(rt, part)?;
    print_part(rt, clients::shown_part(text, refused))?;
    let counts = Counts {
        clusters: reading.site.cluster_count,
        flows: reading.site.flow_count,
    };
    clients::read_one_line(part, asked, counts).print(rt)
}

// Lends a client a room, so many bytes at the start of a space of '.', and prints what it answers and
// how many bytes of the whole space changed.
fn run_in_room<A: Answer + Drop, F: FnOnce(&mut [u8]) -> A>(
    rt: &impl Print,
    room: usize,
    client: F,
) -> io::Result<()>
    requires length { room ≤ MOST_BYTES }
    requires client { F.IsAlwaysCallable client }
{
    let mut space = [b'.'; MOST_BYTES];
    let answer = client(&mut space[..room]);
    answer.print_with(rt, &space)
}

// Runs the clients that take the text, and then those that take its records, which the patches change
// first; a plan text is checked for both.
fn run_clients(
    rt: &impl Print,
    input: &mut impl Read,
    head: Head,
    text: &[u8],
    plan: &[u8],
) -> io::Result<()> {
    let reading = clients::read_text(text);
    run_lines(rt, text, &reading, head.line)?;
    run_in_room(rt, head.plan_room, |room| clients::commission(text, room))?;
    run_in_room(rt, head.plan_room, |room| clients::survey(text, room))?;
    run_in_room(rt, head.plan_room, |room| {
        clients::plan_and_check(text, room)
    })?;
    run_in_room(rt, head.site_room, |room| clients::rewrite(text, room))?;
    clients::place(text).print(rt)?;
    clients::check(text, plan).print(rt)?;
    let mut records = reading.site;
    read_patches(input, &mut records, head.patches)?;
    run_in_room(rt, head.plan_room, |room| {
        clients::plan_records(&records, room)
    })?;
    run_in_room(rt, head.site_room, |room| {
        clients::write_records(&records, room)
    })?;
    run_in_room(rt, head.site_room, |room| {
        clients::there_and_back(&records, room)
    })?;
    clients::check_records(&records, plan).print(rt)
}

// Runs all cases, up to the end of the input or a head that asks for more than there is space.
fn main(rt: HostRuntime) -> io::Result<()> {
    let mut input = rt.stdin();
    let mut text_space = [0; MOST_BYTES];
    let mut plan_space = [0; MOST_BYTES];
    for _ in 0..MOST_CASES {
        let Some(head) = read_array(&mut input)?.and_then(Head::new) else {
            break;
        };
        let Some(text) = read_part(&mut input, &mut text_space[..head.text])? else {
            break;
        };
        let Some(plan) = read_part(&mut input, &mut plan_space[..head.plan])? else {
            break;
        };
        run_clients(&rt, &mut input, head, text, plan)?;
    }
    Ok(())
}
