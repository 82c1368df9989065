//! What the program leaves: files, and lines.
ghost use Rattle.std.specs.Prelude.{◌≡◌, ◌+◌, None, OnOk, string_bytes};
ghost use Rattle.octet_bank.specs.Reports.{Saves, Tells, balance_of, balance_line};

use crate::fault::Fault;
use crate::teller::ACCOUNT;
use octet_base::{Desk, DeskFault};
use octet_model::Outcome;
use std::alloc::Global;

/// Writes a file, whole.
pub(crate) fn save<D: Desk>(
    alloc: Global,
    desk: &mut D,
    name: &str,
    bytes: &[u8],
) -> Result<(), DeskFault>
    requires { (D.state desk.old).begun ≡ None }
    ensures begun { OnOk result ((D.state desk.new).begun ≡ None) }
    ensures saved { OnOk result (Saves name.now bytes.now (D.state desk.old).contents (D.state desk.new).contents) }
{
    desk.begin(alloc, name)?;
    desk.add(alloc, bytes)?;
    desk.finish()
}

/// Says whose balance it is, and what it would be if no payment were lost.
pub(crate) fn tell<D: Desk>(
    alloc: Global,
    desk: &mut D,
    whose: &str,
    outcome: &Outcome,
    total: u64,
) -> Result<(), Fault>
    ensures begun { (D.state desk.new).begun ≡ (D.state desk.old).begun }
    ensures told { OnOk result (Tells (balance_line whose.now (balance_of outcome.now) total) (D.state desk.old).contents (D.state desk.new).contents) }
{
    let balance = match outcome.heap.get(usize::from(ACCOUNT)) {
        Some(balance) => *balance,
        None => 0,
    };
    let line = format!(in alloc; "{whose}balance {balance} of {total}\n")?;
    desk.say(alloc, line.as_bytes())?;
    Ok(())
}
