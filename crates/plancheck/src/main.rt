// Reads a plan file on standard input, and says whether it keeps the rules and what is in it.
// An accepted file is listed duct by duct, saved again and compared. For a refused one the number, the duct's place and
// the rule are printed, and the program ends with status 1.
#![tactic(auto)]

ghost use Rattle.std.specs.Prelude.{Some};
ghost use Rattle.plancheck.specs.Lines.{refused_text};

use plan::plans::Plan;
use plan::refusals::Refusal;
use planfile::{load, save};
use std::io::Read;
use std::{fmt, io};

// Why a file is refused, as it is printed: the number, the duct's place where it is about a duct of the file, and the rule that
// was broken.
#[derive(Drop)]
struct Refused(Refusal);

impl fmt::Display for Refused {
    ghost output = { λ refused. Some (refused_text refused.0) };

    fn fmt<W: fmt::Write>(&self, f: &mut fmt::Formatter<W>) -> fmt::Result {
        let refusal = self.0;
        let number = refusal.number();
        match refusal {
            Refusal::Ends { place }
            | Refusal::Length { place }
            | Refusal::Bore { place }
            | Refusal::Repeat { place } => write!(f, "refused {number} at duct {place}: {refusal}"),
            _ => write!(f, "refused {number}: {refusal}"),
        }
    }
}

// Prints a refusal, and gives the error that ends the program.
fn refuse(rt: &HostRuntime, refusal: Refusal) -> io::Result<()> {
    rt.println(Refused(refusal))?;
    Err(io::Error::other("refused"))
}

// The pit count and the duct count, then a line for each duct.
fn list_plan(rt: &HostRuntime, plan: &Plan) -> io::Result<()> {
    let pits = plan.pit_count();
    let count = plan.ducts().len();
    println!(rt; "accepted")?;
    println!(rt; "pits: {pits}")?;
    println!(rt; "ducts: {count}")?;
    for (i, duct) in plan.ducts().iter().enumerate() {
        println!(rt; "duct {i}: {duct}")?;
    }
    Ok(())
}

// Saves the plan and compares its file with the bytes that were read.
fn save_again(rt: &HostRuntime, plan: &Plan, bytes: &[u8]) -> io::Result<()> {
    let mut buffer = [0u8; save::MAX_SIZE];
    match save::save(plan, &mut buffer) {
        Ok(size) if &buffer[..size] == bytes => {
            println!(rt; "saved again: {size} bytes, the same")
        }
        Ok(size) => {
            println!(rt; "saved again: {size} bytes, not the same")?;
            Err(io::Error::other("saved otherwise"))
        }
        Err(refusal) => refuse(rt, refusal),
    }
}

fn main(rt: HostRuntime) -> io::Result<()> {
    let mut bytes = Vec::new(rt.alloc());
    rt.stdin().read_to_end(&mut bytes)?;
    let size = bytes.len();
    println!(rt; "read {size} bytes")?;
    let mut plan = Plan::blank();
    match load::load(&mut plan, &bytes) {
        Ok(()) => {
            list_plan(&rt, &plan)?;
            save_again(&rt, &plan, &bytes)
        }
        Err(refusal) => refuse(&rt, refusal),
    }
}

#[cfg(test)]
mod tests {
    use super::*;
    use std::process::Abort;
    use std::test::Fail;

    // The line of a refusal.
    fn told(rt: &(impl Abort + AllocGlobal), refusal: Refusal, line: &str) -> Result<(), Fail> {
        assert!(rt; Refused(refusal).to_string(rt.alloc())?.as_str() == line);
        Ok(())
    }

    #[test]
    fn refusals_of_a_file_in_words(rt: HostRuntime) -> Result<(), Fail> {
        told(
            &rt,
            Refusal::ShortFile,
            "refused 1: a plan file has at least 4 bytes",
        )?;
        told(
            &rt,
            Refusal::PitCount,
            "refused 2: a plan has 1 to 512 pits",
        )?;
        told(
            &rt,
            Refusal::DuctCount,
            "refused 3: a plan has at most 1024 ducts",
        )?;
        told(
            &rt,
            Refusal::FileSize,
            "refused 4: a plan file has exactly 4 bytes and 10 more for each duct",
        )?;
        told(
            &rt,
            Refusal::Ends { place: 0 },
            "refused 5 at duct 0: a duct's first end is below its second, and both are pits of the plan",
        )?;
        told(
            &rt,
            Refusal::Length { place: 7 },
            "refused 6 at duct 7: a duct is 1 to 1000000 centimetres long",
        )?;
        told(
            &rt,
            Refusal::Bore { place: 10 },
            "refused 7 at duct 10: a duct's bore is 10 to 300 millimetres",
        )?;
        told(
            &rt,
            Refusal::Repeat { place: 1023 },
            "refused 8 at duct 1023: no two ducts join the same two pits",
        )
    }
}
