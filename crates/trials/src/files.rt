// The examples of load and save that the rules name.
use crate::answers;
use plan::ducts::Duct;
use plan::plans::Plan;
use planfile::{load, save};
use std::alloc::Global;
use std::process::Abort;
use std::test::Fail;
use trial_parts::plans::loaded;

// A duct, in the order in which the rules list it.
pub(crate) fn duct(first: u16, second: u16, length: u32, bore: u16) -> Duct {
    Duct {
        first,
        second,
        length,
        bore,
    }
}

// The bytes of a file with these ducts, whether they keep the rules or not.
fn file(heap: Global, pits: u16, ducts: &[Duct]) -> Result<Vec<u8>, Fail> {
    let mut bytes = Vec::new(heap);
    let count = u16::try_from(ducts.len())?;
    bytes.extend_from_slice(&pits.to_le_bytes())?;
    bytes.extend_from_slice(&count.to_le_bytes())?;
    for d in ducts {
        bytes.extend_from_slice(&d.first.to_le_bytes())?;
        bytes.extend_from_slice(&d.second.to_le_bytes())?;
    }
    for d in ducts {
        bytes.extend_from_slice(&d.length.to_le_bytes())?;
        bytes.extend_from_slice(&d.bore.to_le_bytes())?;
    }
    Ok(bytes)
}

const TWO_PITS: [u8; 14] = [2, 0, 1, 0, 0, 0, 1, 0, 0xf4, 1, 0, 0, 100, 0];

// Loads a file over the two-pit plan: it is refused with this number and this place, and that plan stays.
fn refused(rt: &impl Abort, bytes: &[u8], number: u8, place: u32) -> Result<(), Fail> {
    let mut plan = loaded(&TWO_PITS)?;
    answers::refused(rt, load::load(&mut plan, bytes), number, place)?;
    assert_eq!(rt; plan.pit_count(), 2);
    assert!(rt; plan.ducts() == [duct(0, 1, 500, 100)].as_slice());
    Ok(())
}

// The same for a file of three pits with these ducts.
fn refused_ducts(
    rt: &impl Abort,
    heap: Global,
    ducts: &[Duct],
    number: u8,
    place: u32,
) -> Result<(), Fail> {
    refused(rt, file(heap, 3, ducts)?.as_slice(), number, place)
}

// A file of three pits with these ducts is accepted with them.
fn accepted_ducts(rt: &impl Abort, heap: Global, ducts: &[Duct]) -> Result<(), Fail> {
    let plan = loaded(file(heap, 3, ducts)?.as_slice())?;
    assert_eq!(rt; plan.pit_count(), 3);
    assert!(rt; plan.ducts() == ducts);
    Ok(())
}

#[test]
fn sizes_of_a_file(rt: HostRuntime) -> Result<(), Fail> {
    refused(&rt, &[], 1, 0)?;
    refused(&rt, &[1, 0, 0], 1, 0)?;
    refused(&rt, &[0, 0, 0, 0], 2, 0)?;
    refused(&rt, &[1, 2, 0, 0], 2, 0)?;
    refused(&rt, &[2, 0, 1, 4], 3, 0)?;
    refused(&rt, &TWO_PITS[0..8], 4, 0)?;
    refused(&rt, &[1, 0, 0, 0, 0], 4, 0)?;
    // the pit count is asked before the duct count, and that before the size
    refused(&rt, &[0, 0, 0xff, 0xff], 2, 0)?;
    refused(&rt, &[1, 0, 0xff, 0xff, 0], 3, 0)?;
    assert_eq!(rt; loaded(&[1, 0, 0, 0])?.pit_count(), 1);
    assert_eq!(rt; loaded(&[0, 2, 0, 0])?.pit_count(), 512);
    Ok(())
}

#[test]
fn limits_of_a_duct(rt: HostRuntime) -> Result<(), Fail> {
    let heap = rt.alloc();
    accepted_ducts(&rt, heap, &[duct(0, 1, 1, 10)])?;
    accepted_ducts(&rt, heap, &[duct(1, 2, 1_000_000, 300)])?;
    refused_ducts(&rt, heap, &[duct(0, 1, 0, 100)], 6, 0)?;
    refused_ducts(&rt, heap, &[duct(0, 1, 1_000_001, 100)], 6, 0)?;
    refused_ducts(&rt, heap, &[duct(0, 1, 500, 9)], 7, 0)?;
    refused_ducts(&rt, heap, &[duct(0, 1, 500, 301)], 7, 0)
}

#[test]
fn the_first_fault_and_its_place(rt: HostRuntime) -> Result<(), Fail> {
    let heap = rt.alloc();
    let (a, b) = (duct(0, 1, 500, 100), duct(1, 2, 700, 50));
    refused_ducts(&rt, heap, &[a, b, duct(1, 1, 1, 10)], 5, 2)?;
    refused_ducts(&rt, heap, &[a, duct(1, 3, 1, 10)], 5, 1)?;
    refused_ducts(&rt, heap, &[a, duct(1, 2, 0, 10)], 6, 1)?;
    refused_ducts(&rt, heap, &[a, b, duct(0, 1, 1, 10)], 8, 2)?;
    // in one duct the ends are asked first, then the length, the bore, and the repeat
    refused_ducts(&rt, heap, &[a, duct(1, 0, 0, 9)], 5, 1)?;
    refused_ducts(&rt, heap, &[a, duct(0, 1, 0, 9)], 6, 1)?;
    refused_ducts(&rt, heap, &[a, duct(0, 1, 1, 9)], 7, 1)?;
    // an earlier duct is asked whole before a later one
    refused_ducts(&rt, heap, &[a, a, duct(2, 1, 1, 10)], 8, 1)
}

// A save that is refused with this number and no figures, and leaves a buffer of nines.
fn save_refused(rt: &impl Abort, plan: &Plan, buffer: &mut [u8], number: u8) -> Result<(), Fail> {
    answers::refused(rt, save::save(plan, buffer), number, 0)?;
    assert!(rt; buffer.iter().all(|byte| *byte == 9));
    Ok(())
}

#[test]
fn save_writes_at_the_front(rt: HostRuntime) -> Result<(), Fail> {
    let plan = loaded(&TWO_PITS)?;
    let mut buffer = [9u8; 16];
    assert_eq!(rt; save::save(&plan, &mut buffer)?, 14);
    assert!(rt; &buffer[0..14] == TWO_PITS.as_slice());
    assert!(rt; &buffer[14..16] == [9, 9].as_slice());
    save_refused(&rt, &plan, &mut [9u8; 13], 15)?;
    save_refused(&rt, &Plan::blank(), &mut [9u8; 16], 14)?;
    // a blank plan is refused before a short buffer
    save_refused(&rt, &Plan::blank(), &mut [9u8; 3], 14)
}
