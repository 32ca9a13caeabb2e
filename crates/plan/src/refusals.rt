ghost use Rattle.std.specs.Prelude.{◌≡◌, Some};
ghost use Rattle.plan.specs.Refusals.{told, in_words};

use std::error::Error;
use std::fmt;

// Why a call is refused: the first question that got a no. The place is that of the duct in the file,
// from 0, and 0 where the duct came by a lay or its ends by a lift.
#[derive(Clone, Copy, PartialEq, Eq, Debug)]
pub enum Refusal {
    // 1: the file has fewer than 4 bytes
    ShortFile,
    // 2: the pit count is not 1 to 512
    PitCount,
    // 3: there are more than 1,024 ducts
    DuctCount,
    // 4: the file has not exactly 4 + 10 bytes a duct
    FileSize,
    // 5: the ends are not in rising order below the pit count
    Ends { place: u16 },
    // 6: the length is not 1 to 1,000,000 centimetres
    Length { place: u16 },
    // 7: the bore is not 10 to 300 millimetres
    Bore { place: u16 },
    // 8: an earlier duct joins the same two pits
    Repeat { place: u16 },
    // 9: a plan of `pits` pits does not fit the finder `depth` layers down
    Unfit { depth: u32, pits: u16 },
    // 10: no duct joins the two pits
    NoDuct,
    // 11: a pit is not on the plan
    OffPlan,
    // 12: the list has fewer places than the plan has pits
    ShortList,
    // 13: no way joins the two pits
    NoWay,
    // 14: the plan is blank
    BlankPlan,
    // 15: the buffer is too short
    ShortBuffer,
}

// The two figures that a refusal carries besides its number.
#[derive(Clone, Copy, PartialEq, Eq, Debug, Default)]
pub struct Figures {
    pub first: u32,
    pub second: u32,
}

impl Refusal {
    // The number of the question that got a no. The calls give the refusal itself; the number is for whoever reads it.
    pub fn number(self) -> u8
        ensures { result ≡ (told self).number }
    {
        match self {
            Refusal::ShortFile => 1,
            Refusal::PitCount => 2,
            Refusal::DuctCount => 3,
            Refusal::FileSize => 4,
            Refusal::Ends { .. } => 5,
            Refusal::Length { .. } => 6,
            Refusal::Bore { .. } => 7,
            Refusal::Repeat { .. } => 8,
            Refusal::Unfit { .. } => 9,
            Refusal::NoDuct => 10,
            Refusal::OffPlan => 11,
            Refusal::ShortList => 12,
            Refusal::NoWay => 13,
            Refusal::BlankPlan => 14,
            Refusal::ShortBuffer => 15,
        }
    }

    // The duct's place for 5 to 8, depth and pit count for 9, and 0 for the others.
    pub fn figures(self) -> Figures
        ensures first { result.first ≡ (told self).first }
        ensures second { result.second ≡ (told self).second }
    {
        match self {
            Refusal::Ends { place }
            | Refusal::Length { place }
            | Refusal::Bore { place }
            | Refusal::Repeat { place } => Figures {
                first: u32::from(place),
                second: 0,
            },
            Refusal::Unfit { depth, pits } => Figures {
                first: depth,
                second: u32::from(pits),
            },
            _ => Figures::default(),
        }
    }

    // The rule that was broken, in words.
    pub fn rule(self) -> &'static str
        ensures { result.now ≡ in_words self }
    {
        match self {
            Refusal::ShortFile => "a plan file has at least 4 bytes",
            Refusal::PitCount => "a plan has 1 to 512 pits",
            Refusal::DuctCount => "a plan has at most 1024 ducts",
            Refusal::FileSize => "a plan file has exactly 4 bytes and 10 more for each duct",
            Refusal::Ends { .. } =>
                "a duct's first end is below its second, and both are pits of the plan",
            Refusal::Length { .. } => "a duct is 1 to 1000000 centimetres long",
            Refusal::Bore { .. } => "a duct's bore is 10 to 300 millimetres",
            Refusal::Repeat { .. } => "no two ducts join the same two pits",
            Refusal::Unfit { .. } => "the plan's trunk fits the finder",
            Refusal::NoDuct => "there is a duct between the two pits",
            Refusal::OffPlan => "every pit that is named is on the plan",
            Refusal::ShortList => "the list has a place for each pit of the plan",
            Refusal::NoWay => "there is a way between the two pits",
            Refusal::BlankPlan => "the plan has pits",
            Refusal::ShortBuffer => "the buffer is long enough",
        }
    }
}

// A refusal is printed as its rule.
impl fmt::Display for Refusal {
    ghost output = { λ refusal. Some (in_words refusal) };

    fn fmt<W: fmt::Write>(&self, f: &mut fmt::Formatter<W>) -> fmt::Result {
        f.write_str(self.rule())
    }
}

impl Error for Refusal {}
