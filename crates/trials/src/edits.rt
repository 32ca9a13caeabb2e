// The examples of lay and lift, and of the largest plan.
use crate::answers::refused;
use crate::files;
use plan::ducts::Duct;
use plan::plans::Plan;
use planfile::save;
use std::test::Fail;
use trial_parts::plans::loaded;

// A duct of 250 cm and 60 mm.
fn duct(first: u16, second: u16) -> Duct {
    files::duct(first, second, 250, 60)
}

// The plan of four pits with the ducts 0-1, 1-2 and 0-2, in that order.
fn triangle() -> Result<Plan, Fail> {
    let plan = loaded(&[4, 0, 0, 0])?;
    Ok(plan.lay(duct(0, 1))?.lay(duct(1, 2))?.lay(duct(0, 2))?)
}

#[test]
fn lay_asks_in_order(rt: HostRuntime) -> Result<(), Fail> {
    let plan = triangle()?;
    refused(&rt, plan.lay(files::duct(1, 0, 0, 9)), 5, 0)?;
    refused(&rt, plan.lay(duct(3, 4)), 5, 0)?;
    refused(&rt, plan.lay(files::duct(0, 1, 1_000_001, 9)), 6, 0)?;
    refused(&rt, plan.lay(files::duct(0, 1, 250, 301)), 7, 0)?;
    refused(&rt, plan.lay(duct(0, 1)), 8, 0)?;
    refused(&rt, Plan::blank().lay(duct(0, 1)), 5, 0)?;
    let laid = plan.lay(duct(2, 3))?;
    assert!(rt; laid.ducts() == [duct(0, 1), duct(1, 2), duct(0, 2), duct(2, 3)].as_slice());
    assert_eq!(rt; laid.pit_count(), 4);
    assert_eq!(rt; plan.ducts().len(), 3);
    Ok(())
}

#[test]
fn lift_keeps_the_order(rt: HostRuntime) -> Result<(), Fail> {
    let plan = triangle()?;
    refused(&rt, plan.lift(1, 0), 5, 0)?;
    refused(&rt, plan.lift(3, 4), 5, 0)?;
    refused(&rt, plan.lift(2, 3), 10, 0)?;
    refused(&rt, Plan::blank().lift(0, 1), 5, 0)?;
    let lifted = plan.lift(1, 2)?;
    assert!(rt; lifted.ducts() == [duct(0, 1), duct(0, 2)].as_slice());
    assert_eq!(rt; lifted.pit_count(), 4);
    refused(&rt, lifted.lift(1, 2), 10, 0)?;
    assert_eq!(rt; plan.ducts().len(), 3);
    Ok(())
}

#[test]
fn the_duct_between_two_pits(rt: HostRuntime) -> Result<(), Fail> {
    let plan = triangle()?;
    assert_eq!(rt; plan.duct_between(1, 2), Some(duct(1, 2)));
    assert_eq!(rt; plan.duct_between(2, 0), Some(duct(0, 2)));
    assert_eq!(rt; plan.duct_between(2, 3), None);
    assert!(rt; duct(1, 2).joins(2, 1));
    assert!(rt; !duct(1, 2).joins(1, 1));
    Ok(())
}

// The plan of 512 pits with 1,024 ducts: each pit joined to the next, to the one after that, and 3 more. The loops go over pits.
fn largest() -> Result<Plan, Fail> {
    let mut plan = loaded(&[0, 2, 0, 0])?;
    for i in 0..511 {
        plan = plan.lay(duct(i, i + 1))?;
    }
    for i in 0..510 {
        plan = plan.lay(duct(i, i + 2))?;
    }
    for i in 0..3 {
        plan = plan.lay(duct(i, i + 3))?;
    }
    Ok(plan)
}

#[test]
fn the_largest_plan(rt: HostRuntime) -> Result<(), Fail> {
    let plan = largest()?;
    assert_eq!(rt; plan.ducts().len(), 1024);
    refused(&rt, plan.lay(duct(7, 11)), 3, 0)?;
    // a repeat is refused before the count
    refused(&rt, plan.lay(duct(7, 8)), 8, 0)?;
    let mut buffer = [0u8; save::MAX_SIZE];
    assert_eq!(rt; save::save(&plan, &mut buffer)?, 10_244);
    let again = loaded(&buffer)?;
    assert!(rt; again.ducts() == plan.ducts());
    assert_eq!(rt; again.pit_count(), 512);
    let lifted = again.lift(0, 1)?;
    assert_eq!(rt; lifted.ducts().len(), 1023);
    assert_eq!(rt; lifted.lay(duct(0, 1))?.ducts().len(), 1024);
    Ok(())
}
