// The examples of searches that the rules name, and what a search refuses.
use measure::{Bore, Length, Measure};
use plan::plans::Plan;
use plan::refusals::Refusal;
use search::indexed::IndexedPlan;
use search::marks::PLACES;
use search::searching;
use search::table::Table;
use std::process::Abort;
use std::test::Fail;
use trial_parts::plans::loaded;
use ways::way_cost;

// The file of the nine-pit district: a ring of eight pits, and pit 8 joined to pit 3.
const NINE_PITS: [u8; 94] = [
    9, 0, 9, 0, 0, 0, 1, 0, 1, 0, 2, 0, 2, 0, 3, 0, 3, 0, 4, 0, 4, 0, 5, 0, 5, 0, 6, 0, 6, 0, 7, 0,
    0, 0, 7, 0, 3, 0, 8, 0, 0xf4, 1, 0, 0, 100, 0, 0xbc, 2, 0, 0, 50, 0, 0x90, 1, 0, 0, 100, 0,
    0x84, 3, 0, 0, 100, 0, 0x2c, 1, 0, 0, 75, 0, 0x58, 2, 0, 0, 100, 0, 200, 0, 0, 0, 100, 0, 0x20,
    3, 0, 0, 40, 0, 250, 0, 0, 0, 60, 0,
];

// The table of a search through allowed pits.
fn searched<M: Measure>(plan: &Plan, allowed: &[bool], goal: u16) -> Result<Table, Fail> {
    let mut table = Table::new();
    searching::search::<M>(&IndexedPlan::new(plan), allowed, goal, &mut table)?;
    Ok(table)
}

// A refusal with this number, as the rules have it. The crate trials has a like helper: both need Abort, which no library may take.
fn refused<T: Drop>(rt: &impl Abort, answer: Result<T, Refusal>, number: u8) -> Result<(), Fail> {
    let Err(refusal) = answer else {
        return Err(Fail::new("accepted"));
    };
    assert_eq!(rt; refusal.number(), number);
    Ok(())
}

#[test]
fn costs_and_ways_in_the_nine_pits(rt: HostRuntime) -> Result<(), Fail> {
    let plan = loaded(&NINE_PITS)?;
    let lengths = searched::<Length>(&plan, &[true; PLACES], 0)?;
    let bores = searched::<Bore>(&plan, &[true; PLACES], 0)?;
    assert_eq!(rt; lengths.cost(8)?, 1850);
    assert_eq!(rt; lengths.cost(5)?, 1600);
    assert_eq!(rt; bores.cost(5)?, 50);
    let mut list = [9u16; 10];
    assert_eq!(rt; lengths.write_way(8, &mut list)?, 5);
    assert!(rt; &list == &[8, 3, 2, 1, 0, 9, 9, 9, 9, 9]);
    // standing still
    assert_eq!(rt; searched::<Length>(&plan, &[true; PLACES], 8)?.cost(8)?, 0);
    assert_eq!(rt;
        searched::<Bore>(&plan, &[true; PLACES], 8)?.cost(8)?,
        65535
    );
    Ok(())
}

#[test]
fn ways_through_allowed_pits(rt: HostRuntime) -> Result<(), Fail> {
    let plan = loaded(&NINE_PITS)?;
    // round the ring the other way
    let mut allowed = [true; 9];
    allowed[2] = false;
    let table = searched::<Length>(&plan, &allowed, 0)?;
    assert_eq!(rt; table.cost(8)?, 3050);
    refused(&rt, table.cost(2), 13)?;
    // past the end of the list no pit is allowed
    let table = searched::<Length>(&plan, &[true, true], 0)?;
    assert_eq!(rt; table.cost(1)?, 500);
    refused(&rt, table.cost(7), 13)?;
    // no way ends at a goal that is not allowed
    let table = searched::<Length>(&plan, &allowed, 2)?;
    refused(&rt, table.cost(2), 13)?;
    refused(&rt, table.cost(1), 13)
}

#[test]
fn what_a_search_refuses(rt: HostRuntime) -> Result<(), Fail> {
    let plan = loaded(&NINE_PITS)?;
    let mut table = searched::<Length>(&plan, &[true; PLACES], 0)?;
    refused(
        &rt,
        searching::search::<Length>(&IndexedPlan::new(&plan), &[true; PLACES], 9, &mut table),
        11,
    )?;
    // the table of the search before stays
    assert_eq!(rt; table.cost(8)?, 1850);
    refused(&rt, table.cost(9), 11)?;
    // a pit off the plan is asked before the list, and the list before the way
    let mut short = [7u16; 8];
    refused(&rt, table.write_way(9, &mut short), 11)?;
    refused(&rt, table.write_way(8, &mut short), 12)?;
    assert!(rt; &short == &[7; 8]);
    refused(&rt, Table::new().cost(0), 11)?;
    // two pits that no duct joins, and a plan of one pit
    let parts = searched::<Bore>(&loaded(&[2, 0, 0, 0])?, &[true; 2], 0)?;
    refused(&rt, parts.cost(1), 13)?;
    refused(&rt, parts.write_way(1, &mut [0; 1]), 12)?;
    refused(&rt, parts.write_way(1, &mut [0; 2]), 13)?;
    let one = searched::<Length>(&loaded(&[1, 0, 0, 0])?, &[true], 0)?;
    assert_eq!(rt; one.write_way(0, &mut [0; 1])?, 1);
    Ok(())
}

#[test]
fn the_cost_of_pits(rt: HostRuntime) -> Result<(), Fail> {
    let plan = loaded(&NINE_PITS)?;
    assert_eq!(rt; way_cost::<Length>(&plan, &[8, 3, 2, 1, 0]), Some(1850));
    assert_eq!(rt; way_cost::<Bore>(&plan, &[5, 4, 3]), Some(75));
    // pits may repeat
    assert_eq!(rt; way_cost::<Length>(&plan, &[0, 1, 0]), Some(1000));
    assert_eq!(rt; way_cost::<Length>(&plan, &[4]), Some(0));
    assert_eq!(rt; way_cost::<Bore>(&plan, &[4]), Some(65535));
    assert_eq!(rt; way_cost::<Length>(&plan, &[]), None);
    assert_eq!(rt; way_cost::<Length>(&plan, &[9]), None);
    assert_eq!(rt; way_cost::<Length>(&plan, &[0, 2]), None);
    Ok(())
}
