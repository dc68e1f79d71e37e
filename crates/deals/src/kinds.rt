// The kinds of groups in a body, and how many groups and words a tape has of each.
ghost use Rattle.std.specs.Prelude.{◌≡◌};
ghost use Rattle.deals.specs.Groups.{groups_of, group_length};
ghost use Rattle.deals.specs.Deals.{kind_length};
ghost use Rattle.deals.specs.Kinds.{number_of};

use field::Width;

// The groups of the tape's three sections, and the last group, which stands behind the triples.
#[derive(Clone, Copy)]
pub enum Kind {
    Square,
    Power,
    Triple,
    Last,
}

impl Kind {
    // All kinds, in the order of the body.
    pub const ALL: [Kind; 4] = [Kind::Square, Kind::Power, Kind::Triple, Kind::Last];

    // How many words each box has of a group.
    pub fn group_words(self, n: Width) -> usize
        ensures { result ≡ group_length n.bits (number_of self) }
    {
        match self {
            Kind::Square => 2,
            Kind::Power => n.bits as usize + 1,
            Kind::Triple => 3,
            Kind::Last => 7,
        }
    }

    // How many groups a tape has.
    pub fn group_count(self, n: Width) -> usize
        ensures { result ≡ groups_of n.bits (number_of self) }
    {
        let m = n.bits as usize;
        match self {
            Kind::Square => 3 * (m * m),
            Kind::Power => 3 * m,
            Kind::Triple => 3 * m + 6,
            Kind::Last => 1,
        }
    }

    // How many words each box has of all groups.
    pub fn words(self, n: Width) -> usize
        ensures { result ≡ kind_length n.bits (number_of self) }
    {
        self.group_count(n) * self.group_words(n)
    }
}
