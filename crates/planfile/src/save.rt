ghost use Rattle.std.specs.Prelude.{◌≡◌, ◌+◌, ◌*◌, ◌≤◌, ◌++◌, length, take, drop, IfOk, Ok};
ghost use Rattle.std.specs.List.{flat_map};
ghost use Rattle.plan.specs.Fields.{plan_of};
ghost use Rattle.plan.specs.Refusals.{heard};
ghost use Rattle.planfile.specs.Format.{file_size, encode, ends_of, sizes_of};
ghost use Rattle.planfile.specs.Loading.{decode};
ghost use Rattle.planfile.specs.Saving.{save_in, written};
ghost use Rattle.planfile.specs.Words.{over};

use crate::writer::Writer;
use plan::ducts::Duct;
use plan::limits::MAX_DUCTS;
use plan::plans::Plan;
use plan::refusals::Refusal;

// How many bytes the file of the largest plan has.
pub const MAX_SIZE: usize = 4 + 10 * MAX_DUCTS;

// Writes both arrays, duct by duct: the ends by one writer, the lengths and bores by another.
fn put_ducts(ducts: &[Duct], ends: &mut Writer<'_>, sizes: &mut Writer<'_>)
    requires ends_room { ends.old.at + 4 * length ducts.now ≤ length ends.old.buffer.now }
    requires sizes_room { sizes.old.at + 6 * length ducts.now ≤ length sizes.old.buffer.now }
    ensures ends { ends.new.buffer.now ≡ over ends.old.buffer.now ends.old.at (flat_map ends_of ducts.now) }
    ensures ends_reference { ends.new.buffer.ghost_name ≡ ends.old.buffer.ghost_name }
    ensures sizes { sizes.new.buffer.now ≡ over sizes.old.buffer.now sizes.old.at (flat_map sizes_of ducts.now) }
    ensures sizes_reference { sizes.new.buffer.ghost_name ≡ sizes.old.buffer.ghost_name }
{
    for duct in ducts {
        ends.put(duct.first.to_le_bytes());
        ends.put(duct.second.to_le_bytes());
        sizes.put(duct.length.to_le_bytes());
        sizes.put(duct.bore.to_le_bytes());
    }
}

// Writes the file of a plan that has pits at the front of a buffer that has room for it.
fn put_file(plan: &Plan, buffer: &mut [u8])
    requires some { 1 ≤ (plan_of plan.now).pits }
    requires room { file_size (length (plan_of plan.now).ducts) ≤ length buffer.old }
    ensures bytes { buffer.new ≡ encode (plan_of plan.now) ++ drop (file_size (length (plan_of plan.now).ducts)) buffer.old }
    ensures back { decode (take (file_size (length (plan_of plan.now).ducts)) buffer.new) ≡ Ok (plan_of plan.now) }
{
    let ducts = plan.ducts();
    let (front, second) = buffer.split_at_mut(4 + 4 * ducts.len());
    let mut front = Writer::new(front);
    let mut sizes = Writer::new(second);
    front.put(plan.pit_count().to_le_bytes());
    // proved to fit: an error of `try_from` could not come
    front.put((ducts.len() as u16).to_le_bytes());
    put_ducts(ducts, &mut front, &mut sizes);
}

// Writes the plan's file at the front of the buffer and gives its size. Later bytes stay, and so does every byte of a
// buffer that is refused. Reading the file back gives the same plan.
pub fn save(plan: &Plan, buffer: &mut [u8]) -> Result<usize, Refusal>
    ensures answer { heard result ≡ save_in (plan_of plan.now) (length buffer.old) }
    ensures bytes { buffer.new ≡ written (heard result) (encode (plan_of plan.now)) buffer.old }
    ensures back { IfOk result (λ n. decode (take n buffer.new) ≡ Ok (plan_of plan.now)) }
{
    if plan.pit_count() < 1 {
        return Err(Refusal::BlankPlan);
    }
    let size = 4 + 10 * plan.ducts().len();
    if buffer.len() < size {
        return Err(Refusal::ShortBuffer);
    }
    put_file(plan, buffer);
    Ok(size)
}
