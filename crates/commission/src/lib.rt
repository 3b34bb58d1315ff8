// The functions that crate commission_c exports to C: a site's text and a lent room in, one number out.
// They take any bytes and any lengths.
#![tactic(auto)]

ghost use Rattle.std.specs.Prelude.{◌≡◌, length};
ghost use Rattle.hexroom.specs.Room.{handed};
ghost use Rattle.shown.specs.Shown.{line_start, line_at};
ghost use Rattle.writer.specs.Text.{written_says, fitting};
ghost use Rattle.commission.specs.Numbers.{number_of, plan_number, plan_room, rewrite_number, rewrite_room, place_number, check_number};
ghost use Rattle.commission.specs.NumberLaws.{SmallWriting};

use reader::NO_SITE;
use records::Accepted;
use site::{NO_PLACE, Reason, Refusal};

// Copies the text of an accepted site into the room, or refuses by 9 where the room is shorter. What is
// written of the records that were read is the text itself (`write_of_read` of crate roundtrip), so no
// line of it is made anew.
fn give_back(text: &[u8], room: &mut [u8]) -> Result<usize, Refusal>
    ensures answer { result ≡ fitting text.now (length room.old) }
    ensures after { room.new ≡ handed text.now room.old }
{
    if room.len() < text.len() {
        return Err(Reason::ShortRoom.in_line(0));
    }
    room[..text.len()].copy_from_slice(text);
    Ok(text.len())
}

// Plans the site, and answers the length of the plan text. What was read needs no second check.
#[tactic(auto, unfolding(site::specs::Records::no_site))]
fn planned(text: &[u8], room: &mut [u8]) -> Result<usize, Refusal>
    ensures small { SmallWriting result }
    ensures number { number_of (written_says result) ≡ plan_number text.now (length room.old) }
    ensures after { room.new ≡ plan_room text.now room.old }
{
    let mut records = NO_SITE;
    reader::read_into(text, &mut records)?;
    let site = Accepted { site: &records };
    let plan = planner::plan_accepted(site, room)?;
    Ok(plan.length)
}

// Gives the site's text back, and answers its length.
#[tactic(auto, unfolding(site::specs::Records::no_site))]
fn rewritten(text: &[u8], room: &mut [u8]) -> Result<usize, Refusal>
    ensures small { SmallWriting result }
    ensures number { number_of (written_says result) ≡ rewrite_number text.now (length room.old) }
    ensures after { room.new ≡ rewrite_room text.now room.old }
{
    let mut records = NO_SITE;
    reader::read_into(text, &mut records)?;
    give_back(text, room)
}

// Checks a plan text for the site, and answers 0 where it is a plan.
#[tactic(auto, unfolding(site::specs::Records::no_site))]
fn passed(text: &[u8], plan: &[u8]) -> Result<usize, Refusal>
    ensures small { SmallWriting result }
    ensures number { number_of (written_says result) ≡ check_number text.now plan.now }
{
    let mut records = NO_SITE;
    reader::read_into(text, &mut records)?;
    let site = Accepted { site: &records };
    checker::check_accepted(site, plan)?;
    Ok(0)
}

// A length, or a refusal, as one number.
fn as_number(answer: Result<usize, Refusal>) -> u32
    requires { SmallWriting answer }
    ensures { result ≡ number_of (written_says answer) }
{
    match answer {
        Ok(length) => length as u32,
        Err(refusal) => refusal.packed(),
    }
}

// Plans the site and writes the plan text into the room: the length written, or 65,536 x refusal +
// line with the room as it was.
pub fn cartheron_plan(text: &[u8], room: &mut [u8]) -> u32
    ensures { (result ≡ plan_number text.now (length room.old)) × (room.new ≡ plan_room text.now room.old) }
{
    as_number(planned(text, room))
}

// Reads the site and writes its text into the room: the length written, or 65,536 x refusal + line
// with the room as it was.
pub fn cartheron_rewrite(text: &[u8], room: &mut [u8]) -> u32
    ensures { (result ≡ rewrite_number text.now (length room.old)) × (room.new ≡ rewrite_room text.now room.old) }
{
    as_number(rewritten(text, room))
}

// The place of the first bad field of a text that reading refuses by 10 to 14, and 255 for every other
// text.
#[tactic(auto, using(crate::specs::NumberLaws::place_refused, crate::specs::NumberLaws::place_taken), unfolding(site::specs::Records::no_site))]
pub fn cartheron_place(text: &[u8]) -> u32
    ensures { result ≡ place_number text.now }
{
    let mut records = NO_SITE;
    match reader::read_into(text, &mut records) {
        Ok(()) => u32::from(NO_PLACE),
        Err(refusal) => u32::from(refusal.place()),
    }
}

// Whether a plan text, whoever wrote it, is a plan for the site: 0, or 65,536 x refusal + line.
pub fn cartheron_check(text: &[u8], plan: &[u8]) -> u32
    ensures { result ≡ check_number text.now plan.now }
{
    as_number(passed(text, plan))
}

// Where the part begins that is shown for a line.
pub fn cartheron_line_start(text: &[u8], line: usize) -> usize
    ensures { result ≡ line_start text.now line }
{
    shown::line_start(text, line)
}

// How many bytes the part has that is shown for a line.
pub fn cartheron_line_length(text: &[u8], line: usize) -> usize
    ensures { result ≡ length (line_at text.now line) }
{
    shown::line_at(text, line).len()
}
