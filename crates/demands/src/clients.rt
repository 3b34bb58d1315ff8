// Clients of the public functions: each calls them as a tool would, and promises what the tool's
// owner was promised.
ghost use Rattle.std.specs.Prelude.{◌≡◌, true};
ghost use Rattle.reader.specs.Reading.{refused_by};
ghost use Rattle.writer.specs.Text.{written_says};
ghost use Rattle.commission.specs.Numbers.{number_of};
ghost use Rattle.commission.specs.NumberLaws.{SmallWriting};
ghost use Rattle.roundtrip.specs.WriterExact.{ExactWriting};
ghost use Rattle.exactness.specs.CallerExact.{ExactNumber};
ghost use Rattle.exactness.specs.CheckExact.{ExactCheck, ExactChecking};
ghost use Rattle.exactness.specs.PlannerExact.{ExactAnswer};
ghost use Rattle.exactness.specs.RewriteExact.{ExactRewrite};
ghost use Rattle.exactness.specs.PlaceExact.{ExactPlace};
ghost use Rattle.demands.specs.Demands.{Surveyed, BackAgain, PlannedAndPassed, LineShown, LineAnswered};

use planner::Plan;
use reader::{NO_SITE, Reading};
use site::{Counts, Entry, Refusal, Site};

// The commissioning tool's way: a site's text and a room in, one number out.
pub fn commission(text: &[u8], room: &mut [u8]) -> u32
    ensures { ExactNumber text.now room.old result room.new }
{
    commission::cartheron_plan(text, room)
}

// The survey tool's reading.
pub fn read_text(text: &[u8]) -> Reading
    ensures { Surveyed text.now result }
{
    reader::read(text)
}

// The planner on records, which may be anything.
pub fn plan_records(site: &Site, room: &mut [u8]) -> Result<Plan, Refusal>
    ensures { ExactAnswer site.now room.old result room.new }
{
    planner::plan(site, room)
}

// The writer on records, which may be anything.
pub fn write_records(site: &Site, room: &mut [u8]) -> Result<usize, Refusal>
    ensures { ExactWriting site.now room.old result room.new }
{
    writer::write(site, room)
}

// The records of a text, handed to the planner: the length of the plan, or the refusal of either.
fn plan_surveyed(text: &[u8], room: &mut [u8]) -> Result<usize, Refusal>
    ensures small { SmallWriting result }
    ensures number { ExactNumber text.now room.old (number_of (written_says result)) room.new }
{
    let Reading { site, verdict } = read_text(text);
    verdict?;
    let plan = plan_records(&site, room)?;
    Ok(plan.length)
}

// The survey tool's way with the same text: read it, and hand the records to the planner. The number
// is that of `commission`.
pub fn survey(text: &[u8], room: &mut [u8]) -> u32
    ensures { ExactNumber text.now room.old result room.new }
{
    match plan_surveyed(text, room) {
        Ok(length) => length as u32,
        Err(refusal) => refusal.packed(),
    }
}

// A text there and back by the C function.
pub fn rewrite(text: &[u8], room: &mut [u8]) -> u32
    ensures { ExactRewrite text.now room.old result room.new }
{
    commission::cartheron_rewrite(text, room)
}

// The place of a text's bad field by the C function.
pub fn place(text: &[u8]) -> u32
    ensures { ExactPlace text.now result }
{
    commission::cartheron_place(text)
}

// Whether a text is a plan for a site, by the C function.
pub fn check(text: &[u8], plan: &[u8]) -> u32
    ensures { ExactCheck text.now plan.now result }
{
    commission::cartheron_check(text, plan)
}

// The checker on records, which may be anything.
pub fn check_records(site: &Site, plan: &[u8]) -> Result<(), Refusal>
    ensures { ExactChecking site.now plan.now result }
{
    checker::check_plan(site, plan)
}

// Plans a text and has what was written checked: 0 where it passes, or the planner's refusal.
pub fn plan_and_check(text: &[u8], room: &mut [u8]) -> u32
    ensures { PlannedAndPassed text.now room.old result room.new }
{
    let number = commission(text, room);
    if number > 65535 {
        return number;
    }
    let length = number as usize;
    check(text, &room[..length])
}

// A reading of records that are all zero, with this refusal.
fn refused(refusal: Refusal) -> Reading
    ensures { result ≡ refused_by refusal }
{
    Reading {
        site: NO_SITE,
        verdict: Err(refusal),
    }
}

// Records there and back: written into the room, and what was written read again. After a refusal by
// the writer: its refusal, and records all zero.
pub fn there_and_back(site: &Site, room: &mut [u8]) -> Reading
    ensures { BackAgain site.now room.old result room.new }
{
    match write_records(site, room) {
        Ok(length) => read_text(&room[..length]),
        Err(refusal) => refused(refusal),
    }
}

// The part of a text shown for a line, by the two C functions.
pub fn shown_part(text: &[u8], line: usize) -> &[u8]
    ensures { LineShown text.entry result line }
{
    let start = commission::cartheron_line_start(text, line);
    let length = commission::cartheron_line_length(text, line);
    &text[start..start + length]
}

// The part of a text shown for a line, by the library's own function.
pub fn shown_line(text: &[u8], line: usize) -> &[u8]
    ensures { LineShown text.entry result line }
{
    shown::line_at(text, line)
}

// What a line is by itself, as the survey tool says it while the line is typed: ended, after a header
// of so many clusters and flows.
pub fn read_one_line(line: &[u8], k: usize, counts: Counts) -> Result<Entry, Refusal>
    ensures { LineAnswered k counts.clusters counts.flows (record { chars = line.now; ended = true }) result }
{
    site::read_line(line, true, k, counts)
}
