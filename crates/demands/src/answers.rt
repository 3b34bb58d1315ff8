// The answers, on standard output.
#![tactic(auto, unfolding(hexline::specs::Digits::field_bytes, hexline::specs::Digits::number_bytes))]

ghost use Rattle.std.specs.Prelude.{◌≤◌, length};
ghost use Rattle.hexroom.specs.Fields.{bytes_of_fields};

use crate::MOST_BYTES;
use hexroom::Field;
use planner::Plan;
use reader::Reading;
use site::{Entry, Refusal};
use std::io;

// What a client answers.
pub trait Answer {
    // Prints the answer as a line.
    fn print(&self, rt: &impl Print) -> io::Result<()>;

    // How many bytes at the start of the room that the client was lent are its text.
    fn text_length(&self) -> usize {
        0
    }

    // Prints the answer of a client that was lent the start of a space of '.', its text, and how many
    // bytes of the space changed.
    fn print_with(&self, rt: &impl Print, space: &[u8; MOST_BYTES]) -> io::Result<()> {
        self.print(rt)?;
        if let Some(text) = space.get(..self.text_length()) {
            rt.write_all(text)?;
        }
        print_line(rt, &[Field::new(4, changed(space))])
    }
}

// The number alone, or with how many bytes changed behind it.
impl Answer for u32 {
    fn print(&self, rt: &impl Print) -> io::Result<()> {
        print_line(rt, &[Field::new(4, u64::from(*self))])
    }

    fn print_with(&self, rt: &impl Print, space: &[u8; MOST_BYTES]) -> io::Result<()> {
        print_line(
            rt,
            &[
                Field::new(4, u64::from(*self)),
                Field::new(4, changed(space)),
            ],
        )
    }
}

// 8F, the number, the line and the place.
impl Answer for Refusal {
    fn print(&self, rt: &impl Print) -> io::Result<()> {
        print_line(
            rt,
            &[
                Field::byte(0x8F),
                Field::byte(self.number()),
                Field::new(2, self.line() as u64),
                Field::byte(self.place()),
            ],
        )
    }
}

// What is said of records or of a plan that is taken: 80.
impl Answer for () {
    fn print(&self, rt: &impl Print) -> io::Result<()> {
        print_line(rt, &[Field::byte(0x80)])
    }
}

// A line that is taken: 80.
impl Answer for Entry {
    fn print(&self, rt: &impl Print) -> io::Result<()> {
        ().print(rt)
    }
}

// A site's text of so many bytes: 80 and the length.
impl Answer for usize {
    fn print(&self, rt: &impl Print) -> io::Result<()> {
        print_line(rt, &[Field::byte(0x80), Field::new(4, *self as u64)])
    }

    fn text_length(&self) -> usize {
        *self
    }
}

// 80, the length and the order.
impl Answer for Plan {
    fn print(&self, rt: &impl Print) -> io::Result<()> {
        print_line(
            rt,
            &[
                Field::byte(0x80),
                Field::new(4, self.length as u64),
                Field::byte(self.order),
            ],
        )
    }

    fn text_length(&self) -> usize {
        self.length
    }
}

// What was taken, or the refusal.
impl<T: Answer> Answer for Result<T, Refusal> {
    fn print(&self, rt: &impl Print) -> io::Result<()> {
        match self {
            Ok(taken) => taken.print(rt),
            Err(refusal) => refusal.print(rt),
        }
    }

    fn text_length(&self) -> usize {
        match self {
            Ok(taken) => taken.text_length(),
            Err(refusal) => refusal.text_length(),
        }
    }
}

// 80 and how many clusters and flows were read, or the refusal.
impl Answer for Reading {
    fn print(&self, rt: &impl Print) -> io::Result<()> {
        match &self.verdict {
            Ok(()) => print_line(
                rt,
                &[
                    Field::byte(0x80),
                    Field::byte(self.site.cluster_count),
                    Field::byte(self.site.flow_count),
                ],
            ),
            Err(refusal) => refusal.print(rt),
        }
    }
}

// Prints fields, eight bytes at most, as a line of hexadecimal.
#[tactic(auto, using(hexroom::specs::Room::fields_line_length, std::proofs::lemmas::Grind::common_steps))]
fn print_line(rt: &impl Print, fields: &[Field]) -> io::Result<()>
    requires { length (bytes_of_fields fields.now) ≤ 8 }
{
    let mut line = [0u8; 17];
    let n = hexroom::put_line(&mut line, 0, fields, b"");
    rt.write_all(&line[..n])
}

// Prints a part of a text as it is, and LF.
pub fn print_part(rt: &impl Print, part: &[u8]) -> io::Result<()> {
    rt.write_all(part)?;
    rt.write_all(b"\n")
}

// How many bytes of a space are not '.'. They are counted in two bytes, which is enough for them and the
// fewer a number has, the more of a row are counted at once: `count` has eight.
fn changed(space: &[u8; MOST_BYTES]) -> u64 {
    let count = space
        .iter()
        .fold(0u16, |count, &b| count.wrapping_add(u16::from(b != b'.')));
    u64::from(count)
}
