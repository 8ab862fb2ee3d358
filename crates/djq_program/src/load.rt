ghost use Rattle.std.specs.Prelude.{◌≡◌, ◌++◌, IfOk, OnOk, OnErr, decimal};
ghost use Rattle.djq_machine.specs.State.{opening};
ghost use Rattle.djq_machine.specs.Call.{counts};
ghost use Rattle.djq_program_laws.specs.Gen.{summary, Generates, LoadsUntold, GenEnds};

use crate::replay::write_text;
use djq_core::Core;
use djq_counters::{Ledgers, Steps};
use djq_io::Sink;
use djq_load::{Totals, run_load};
use djq_model::{Name, NoMem};
use djq_run::Status;
use itoa::Buffer;
use std::alloc::{AllocError, Global};

/// Runs the load of so many changes with a seed through one session of a machine, lists the answers
/// of its query to their end, and writes its totals. These are the numbers of different rows, of changes
/// and of answers, and the sum of the answers' integers. Out of memory nothing is written, and no more is
/// counted of listings than the lines that were fed may cost.
pub(crate) fn generate<K: Sink, L: Ledgers>(
    alloc: Global,
    n: u32,
    seed: u32,
    sink: &mut K,
    steps: &mut Steps<L>,
) -> Status
    ensures { GenEnds opening result n seed (K.told sink.old) (K.faults sink.old)
        (counts steps.old.listing steps.old.update steps.old.rows) (K.told sink.new)
        (K.faults sink.new) (counts steps.new.listing steps.new.update steps.new.rows) }
{
    match summarize(alloc, n, seed, steps) {
        Ok(text) => write_text(sink, &text, Status::Done),
        Err(NoMem) => Status::NoMemory,
    }
}

/// Runs a load, and returns its totals.
fn summarize<L: Ledgers>(
    alloc: Global,
    n: u32,
    seed: u32,
    steps: &mut Steps<L>,
) -> Result<Vec<u8>, NoMem>
    ensures text { IfOk result (λ text. Generates opening n seed
        (counts steps.old.listing steps.old.update steps.old.rows)
        (counts steps.new.listing steps.new.update steps.new.rows) text.items) }
    ensures memory { OnErr result (LoadsUntold opening n seed
        (counts steps.old.listing steps.old.update steps.old.rows)
        (counts steps.new.listing steps.new.update steps.new.rows)) }
{
    let Ok(mut machine) = Core::new(alloc) else {
        return Err(NoMem);
    };
    let totals = run_load(&mut machine, n, seed, steps)?;
    match summary_text(alloc, &machine, totals) {
        Ok(text) => Ok(text),
        Err(_) => Err(NoMem),
    }
}

/// The summary of a machine that ran a load, with the totals of its query.
fn summary_text(alloc: Global, machine: &Core, totals: Totals) -> Result<Vec<u8>, AllocError>
    ensures { IfOk result (λ text. text.items ≡ summary machine.now.state totals) }
{
    let mut text = Vec::new(alloc);
    put_number(&mut text, b"rows ", machine.rows(&Name::new(b"r")))?;
    put_number(&mut text, b" ", machine.rows(&Name::new(b"s")))?;
    put_number(&mut text, b"\nchanges ", machine.seq())?;
    put_number(&mut text, b"\nanswers ", totals.answers)?;
    put_number(&mut text, b"\nsum ", totals.sum)?;
    text.push(b'\n')?;
    Ok(text)
}

/// Puts words and a number at the end of the text.
fn put_number(text: &mut Vec<u8>, words: &[u8], number: u64) -> Result<(), AllocError>
    ensures { OnOk result (text.new.items ≡ text.old.items ++ words.now ++ decimal number) }
{
    let mut digits = Buffer::new();
    text.extend_from_slice(words)?;
    text.extend_from_slice(digits.format(number).as_bytes())?;
    Ok(())
}
