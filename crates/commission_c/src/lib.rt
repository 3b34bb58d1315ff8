// The C functions of include/cartheron.h: those of crate commission under their own names, each with
// the contract that it has there. They take any bytes and any lengths.
#![tactic(auto)]

ghost use Rattle.std.specs.Prelude.{◌≡◌, length};
ghost use Rattle.shown.specs.Shown.{line_start, line_at};
ghost use Rattle.commission.specs.Numbers.{plan_number, plan_room, rewrite_number, rewrite_room, place_number, check_number};

// Plans the site and writes the plan text into the room: the length written, or 65,536 x refusal +
// line with the room as it was.
#[unsafe(no_mangle)]
pub extern "C" fn cartheron_plan(text: &[u8], room: &mut [u8]) -> u32
    ensures { (result ≡ plan_number text.now (length room.old)) × (room.new ≡ plan_room text.now room.old) }
{
    commission::cartheron_plan(text, room)
}

// Reads the site and writes its text into the room: the length written, or 65,536 x refusal + line
// with the room as it was.
#[unsafe(no_mangle)]
pub extern "C" fn cartheron_rewrite(text: &[u8], room: &mut [u8]) -> u32
    ensures { (result ≡ rewrite_number text.now (length room.old)) × (room.new ≡ rewrite_room text.now room.old) }
{
    commission::cartheron_rewrite(text, room)
}

// The place of the first bad field of a text that reading refuses by 10 to 14, and 255 for every other
// text.
#[unsafe(no_mangle)]
pub extern "C" fn cartheron_place(text: &[u8]) -> u32
    ensures { result ≡ place_number text.now }
{
    commission::cartheron_place(text)
}

// Whether a plan text, whoever wrote it, is a plan for the site: 0, or 65,536 x refusal + line.
#[unsafe(no_mangle)]
pub extern "C" fn cartheron_check(text: &[u8], plan: &[u8]) -> u32
    ensures { result ≡ check_number text.now plan.now }
{
    commission::cartheron_check(text, plan)
}

// Where the part begins that is shown for a line.
#[unsafe(no_mangle)]
pub extern "C" fn cartheron_line_start(text: &[u8], line: usize) -> usize
    ensures { result ≡ line_start text.now line }
{
    commission::cartheron_line_start(text, line)
}

// How many bytes the part has that is shown for a line.
#[unsafe(no_mangle)]
pub extern "C" fn cartheron_line_length(text: &[u8], line: usize) -> usize
    ensures { result ≡ length (line_at text.now line) }
{
    commission::cartheron_line_length(text, line)
}
