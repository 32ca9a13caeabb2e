// A measure says what a duct costs, how costs join along a way, and which of two costs is no worse.
// A cost is a number of 64 bits. A number above a measure's greatest cost is read as the greatest.
// There are two measures, `Length` and `Bore`; code above is generic and proved from the five laws alone.
#![tactic(auto)]

ghost use Rattle.std.specs.Prelude.{◌≡◌, ℕ};
ghost use Rattle.measure.specs.Laws.{Laws};
ghost use Rattle.measure.specs.Meaning.{Meaning, read};
ghost use Rattle.measure.specs.Measures.{by_length, by_bore};
ghost use Rattle.std.proofs.Common.{rules};

// A lawful measure.
pub trait Measure {
    // the cost of standing still: joined with a cost it changes nothing
    const STILL: u64;

    ghost STILL: { ℕ };

    // the greatest cost, where joining stops
    const GREATEST: u64;

    ghost GREATEST: { ℕ };

    // clauses write `read means`, which shows that a number above the greatest cost is read as the greatest
    ghost means: { Meaning };

    // The cost of a duct, from its length and bore alone.
    fn duct_cost(length: u32, bore: u16) -> u64
        ensures { result ≡ (read means).duct length bore };

    // Two costs joined, as when one duct follows another.
    fn join(a: u64, b: u64) -> u64
        ensures { result ≡ (read means).join a b };

    // Whether the cost `a` is no worse than the cost `b`. Two measures order the same numbers in two ways, so this is no order of
    // a type.
    fn no_worse(a: u64, b: u64) -> bool
        ensures { result ≡ (read means).no_worse a b };

    // the five laws, of the measure as it reads numbers
    ghost keeps: { Laws (read means) };

    // the two constants are the measure's own costs
    ghost still_is: { STILL ≡ (read means).still };

    ghost greatest_is: { GREATEST ≡ (read means).greatest };
}

// The length of a way in centimetres, the sum of its ducts' lengths. A smaller cost is no worse.
#[derive(Clone, Copy)]
pub struct Length;

impl Measure for Length {
    const STILL: u64 = 0;

    // 2 to the 40th: no simple way of a plan comes near it
    const GREATEST: u64 = 1_099_511_627_776;

    ghost STILL = { 0 };

    ghost GREATEST = { 1099511627776 };

    ghost means = { by_length };

    ghost keeps = { Prim.search rules };

    ghost still_is = { Prim.search rules };

    ghost greatest_is = { Prim.search rules };

    fn duct_cost(length: u32, _bore: u16) -> u64 {
        u64::from(length)
    }

    fn join(a: u64, b: u64) -> u64 {
        a.saturating_add(b).min(Self::GREATEST)
    }

    fn no_worse(a: u64, b: u64) -> bool {
        a.min(Self::GREATEST) <= b.min(Self::GREATEST)
    }
}

// The bore of a way in millimetres, that of its narrowest duct. A larger cost is no worse.
#[derive(Clone, Copy)]
pub struct Bore;

impl Measure for Bore {
    const STILL: u64 = 65_535;

    const GREATEST: u64 = 65_535;

    ghost STILL = { 65535 };

    ghost GREATEST = { 65535 };

    ghost means = { by_bore };

    ghost keeps = { Prim.search rules };

    ghost still_is = { Prim.search rules };

    ghost greatest_is = { Prim.search rules };

    fn duct_cost(_length: u32, bore: u16) -> u64 {
        u64::from(bore)
    }

    fn join(a: u64, b: u64) -> u64 {
        a.min(b).min(Self::GREATEST)
    }

    fn no_worse(a: u64, b: u64) -> bool {
        b.min(Self::GREATEST) <= a.min(Self::GREATEST)
    }
}
