//! The script of a window.
ghost use Rattle.std.specs.Prelude.{◌≡◌, ◌*◌, ◌<◌, ◌≤◌, length, map, IfOk};
ghost use Rattle.octet_model.specs.declared.limits.TheConstants.{MAX_FUEL, MAX_OBJECTS, MAX_THREADS};
ghost use Rattle.octet_model.specs.Orders.{starting_heap};
ghost use Rattle.octet_window.specs.Noting.{program_of, AllIn};
ghost use Rattle.octet_window.specs.Playing.{all_renamed, AllOf};
ghost use Rattle.octet_window.specs.Windows.{most_lines, AreDifferent, AreThreads, IsScriptWith};

use crate::lines::program_of;
use crate::notes::{Note, Notes};
use crate::objects::objects_of;
use crate::touching::renamed_notes;
use octet_model::{Command, List, OutOfMemory, Script};
use std::alloc::Global;

/// The notes of all threads, with the places of their objects.
pub(crate) fn all_renamed(
    alloc: Global,
    objects: &[u16],
    threads: &[Notes],
) -> Result<Vec<List<Note>>, OutOfMemory>
    requires few { length objects.now ≤ MAX_OBJECTS }
    requires there { AllOf objects.now threads.now }
    ensures renamed { IfOk result (λ others. others.items ≡ all_renamed objects.now threads.now) }
    ensures inside { IfOk result (λ others. AllIn (length objects.now) others.items) }
{
    let mut others = Vec::new(alloc);
    for thread in threads {
        others.push(renamed_notes(alloc, objects, thread.notes.as_slice())?)?;
    }
    Ok(others)
}

/// The programs of all threads.
pub(crate) fn programs_of(
    alloc: Global,
    threads: &[List<Note>],
) -> Result<List<List<Command>>, OutOfMemory>
    ensures { IfOk result (λ programs. programs ≡ map program_of threads.now) }
{
    let mut programs = List::new(alloc);
    for notes in threads {
        programs.push(program_of(alloc, notes.as_slice())?)?;
    }
    Ok(programs)
}

/// The most lines that a program has.
pub(crate) fn most_lines(programs: &[List<Command>]) -> usize
    ensures { result ≡ most_lines programs.now }
{
    let mut most = 0;
    for program in programs {
        most = most.max(program.len());
    }
    most
}

// The fuel of a script with so many threads, of which none has more lines than this.
#[tactic(auto, using(crate::proofs::Valid::le_times))]
fn fuel_for(threads: usize, lines: usize) -> u32
    requires some { 1 ≤ threads }
    requires most { threads ≤ MAX_THREADS }
    requires fuel { threads * lines ≤ MAX_FUEL }
    ensures some { 1 ≤ result }
    ensures lines { lines ≤ result }
    ensures all { threads * result ≤ MAX_FUEL }
{
    if lines == 0 {
        return 1;
    }
    lines as u32
}

/// The script with these objects of a run, which have these values, and these programs, of which none has more lines than this.
pub(crate) fn script_of(
    alloc: Global,
    starts: &[u64],
    objects: &[u16],
    programs: List<List<Command>>,
    lines: usize,
) -> Result<Script, OutOfMemory>
    requires few { length objects.now ≤ MAX_OBJECTS }
    requires starts { length starts.now ≡ length objects.now }
    requires different { AreDifferent objects.now }
    requires threads { AreThreads (length objects.now) programs }
    requires some { 1 ≤ length programs }
    requires most { length programs ≤ MAX_THREADS }
    requires lines { lines ≡ most_lines programs }
    requires fuel { length programs * lines ≤ MAX_FUEL }
    ensures script { IfOk result (IsScriptWith objects.now programs) }
    ensures starts { IfOk result (λ script. starting_heap script ≡ starts.now) }
{
    let objects = objects_of(alloc, starts, objects)?;
    let fuel = fuel_for(programs.len(), lines);
    Ok(Script {
        fuel,
        objects,
        threads: programs,
    })
}
