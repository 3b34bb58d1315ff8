// Refusals (docs/FORMATS.md, "Refusal numbers", "The place", "Checking a plan"): why, in which line, and
// which field.
ghost use Rattle.std.specs.Prelude.{◌≡◌};

use std::marker::Model;

// The place in a refusal that names no field.
pub const NO_PLACE: u8 = 255;

// Why a text, a record, a site or a plan is refused. Each reason's number is its own.
#[derive(Clone, Copy, Debug, PartialEq, Eq)]
pub enum Reason {
    Malformed = 1,
    WrongKind = 2,
    WrongLength = 3,
    WrongParent = 5,
    RepeatedTag = 6,
    NoFit = 7,
    NoPlacing = 8,
    ShortRoom = 9,
    BadHeader = 10,
    BadOrder = 11,
    BadTag = 12,
    BadEnd = 13,
    BadTime = 14,
    BrokenPlan = 20,
    PlanOrder = 21,
    PlanClusters = 22,
    PlanOverlap = 23,
    PlanLate = 24,
}

impl Reason {
    ghost use Rattle.site.specs.Refusals.{number_of, at_line, at_field};

    // The number of a refusal for this reason.
    pub fn number(self) -> u8
        ensures { result ≡ number_of self }
    {
        self as u8
    }

    // A refusal of a line that names no field; line 0 is that of no line.
    pub fn in_line(self, line: usize) -> Refusal
        ensures { result ≡ at_line self line }
    {
        Refusal {
            reason: self,
            line,
            place: None,
        }
    }

    // A refusal of a line for the field at a place; 255 is none.
    pub fn in_field(self, line: usize, place: u8) -> Refusal
        ensures { result ≡ at_field self line place }
    {
        Refusal {
            reason: self,
            line,
            place: Some(place).filter(|&place| place != NO_PLACE),
        }
    }
}

// A refusal: why, in which line, and at which byte of the record the field stands that is out of range,
// where it is one. Clauses see its three numbers, with 255 for no place: so 255 is no field's.
#[derive(Clone, Copy, Drop)]
pub struct Refusal {
    reason: Reason,
    line: usize,
    place: Option<u8>,
}

impl Model for Refusal {
    ghost use Rattle.site.specs.Told.{Told};

    ghost Value = { Told };

    ghost use Rattle.site.specs.Refusals.{told, PlaceNamed};
    ghost use Rattle.site.specs.Untold.{untold, untold_again};

    ghost view = { told };

    ghost invariant = { PlaceNamed };

    ghost inverse = { untold };

    ghost inverse_ok = { untold_again };
}

impl Refusal {
    ghost use Rattle.std.specs.Prelude.{◌+◌, ◌*◌, ◌≤◌};
    ghost use Rattle.site.specs.Refusals.{number_of};
    ghost use Rattle.site.specs.Told.{number, line, place};

    // Its reason.
    pub fn reason(&self) -> Reason
        ensures { number_of result ≡ number self.now }
    {
        self.reason
    }

    // The number of its reason.
    pub fn number(&self) -> u8
        ensures { result ≡ number self.now }
    {
        let reason = self.reason();
        reason.number()
    }

    // Its line, 0 where it is that of no line.
    pub fn line(&self) -> usize
        ensures { result ≡ line self.now }
    {
        self.line
    }

    // The place of its field, 255 where it names none.
    pub fn place(&self) -> u8
        ensures { result ≡ place self.now }
    {
        self.place.unwrap_or(NO_PLACE)
    }

    // Number and line as one number, for C.
    pub fn packed(&self) -> u32
        requires { line self.now ≤ 194 }
        ensures { result ≡ 65536 * number self.now + line self.now }
    {
        65536 * u32::from(self.number()) + self.line as u32
    }
}
