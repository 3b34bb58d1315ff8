// Sets of clusters, a bit of a number for each.
ghost use Rattle.std.specs.Prelude.{◌≡◌, ◌<◌, MatchOption};
ghost use Rattle.std.specs.Iterator.{at_most};
ghost use Rattle.sequence.specs.Sets.{bit_at, LowestOf, Joined, Parted, Taken};

use std::marker::Model;

// A set of clusters, of which there are at most 64.
#[derive(Clone, Copy, Debug, PartialEq, Eq)]
pub struct Clusters(u64);

impl Model for Clusters {
    ghost use Rattle.std.specs.Prelude.{ℕ};

    ghost Value = { ℕ };

    ghost view = { λ s. s.0 };

    ghost inverse = { λ n. record { 0 = n } };
}

impl Clusters {
    // The set with no cluster.
    pub fn new() -> Self
        ensures { result ≡ 0 }
    {
        Self(0)
    }

    // The lowest cluster of the set.
    pub fn lowest(self) -> Option<usize>
        ensures { MatchOption result (self ≡ 0) (LowestOf self) }
    {
        if self.0 == 0 {
            None
        } else {
            Some(self.0.trailing_zeros() as usize)
        }
    }

    // c, which was not in the set, comes in where `comes` says so. It takes no branch.
    pub fn insert_if(&mut self, c: usize, comes: bool)
        requires { (c < 64) × (bit_at self.old c ≡ 0) }
        ensures { Joined self.old c comes self.new }
    {
        self.0 += u64::from(comes) << c;
    }

    // c, which was in the set, goes out.
    pub fn remove(&mut self, c: usize)
        requires { (c < 64) × (bit_at self.old c ≡ 1) }
        ensures { Parted self.old c self.new }
    {
        self.0 -= 1 << c;
    }

    // The clusters of the set, the lowest first.
    pub fn members(self) -> Members
        ensures { result ≡ self }
    {
        Members(self)
    }
}

// The clusters of a set that are left to be gone over.
#[derive(Drop)]
pub struct Members(Clusters);

impl Model for Members {
    ghost use Rattle.std.specs.Prelude.{ℕ};

    ghost Value = { ℕ };

    ghost view = { λ left. left.0 };
}

impl Iterator for Members {
    type Item = usize;

    ghost next_gives = { Taken };

    ghost remaining = { at_most };

    fn next(&mut self) -> Option<usize> {
        let c = self.0.lowest()?;
        self.0.remove(c);
        Some(c)
    }
}
