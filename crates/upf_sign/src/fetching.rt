//! The texts of a job's files.
ghost use Rattle.std.specs.Prelude.{◌≡◌, IfOk, IfErr, IfSome};
ghost use Rattle.pw_outer.specs.Counts.{NoneFalls};
ghost use Rattle.upf_sign.specs.Faults.{IsHeld};
ghost use Rattle.upf_sign.specs.Fetching.{HasTexts, IsFaultAt, IsFirstFault, IsRefusedAs, StopsFetch};
ghost use Rattle.upf_sign.specs.Jobs.{job_in};

use crate::refusals::refusal;
use crate::words::JobWords;
use pw_defs::{Code, LoadFault, Memory};
use pw_outer::{Shelf, ShelfFault};
use std::alloc::Global;

/// The texts of the three files of a job.
#[derive(Drop)]
pub(crate) struct Texts {
    pub library: Vec<u8>,
    pub netlist: Vec<u8>,
    pub script: Vec<u8>,
}

/// The texts of the files of a job, which are fetched in the order of its words.
pub(crate) fn fetch_texts<S: Shelf>(
    alloc: Global,
    shelf: &mut S,
    job: &JobWords<'_>,
) -> Result<Texts, LoadFault>
    ensures same { S.holds shelf.new ≡ S.holds shelf.old }
    ensures counts { NoneFalls (S.counts shelf.old) (S.counts shelf.new) }
    ensures texts { IfOk result (λ texts. IfSome (S.holds shelf.old) (λ files. HasTexts files (job_in job.now) texts)) }
    ensures stop { IfErr result (λ fault.
        StopsFetch (S.holds shelf.old) (IsFirstFault (job_in job.now)) (S.counts shelf.old) (S.counts shelf.new) fault) }
{
    let library = fetch_text(alloc, shelf, job.library)?;
    let netlist = fetch_text(alloc, shelf, job.netlist)?;
    let script = fetch_text(alloc, shelf, job.script)?;
    Ok(Texts {
        library,
        netlist,
        script,
    })
}

/// The text of a file.
fn fetch_text<S: Shelf>(alloc: Global, shelf: &mut S, name: &str) -> Result<Vec<u8>, LoadFault>
    ensures same { S.holds shelf.new ≡ S.holds shelf.old }
    ensures counts { NoneFalls (S.counts shelf.old) (S.counts shelf.new) }
    ensures text { IfOk result (λ text. IfSome (S.holds shelf.old) (λ files. IsHeld files name.now text.items)) }
    ensures stop { IfErr result (λ fault.
        StopsFetch (S.holds shelf.old) (IsFaultAt name.now) (S.counts shelf.old) (S.counts shelf.new) fault) }
{
    let mut text = Vec::new(alloc);
    match shelf.fetch(name, &mut text) {
        Ok(()) => Ok(text),
        Err(ShelfFault::Absent) => Err(refused(alloc, Code::F1, name)),
        Err(ShelfFault::TooLong) => Err(refused(alloc, Code::F2, name)),
        Err(ShelfFault::Failed) => Err(LoadFault::Outside),
        Err(ShelfFault::Memory) => Err(LoadFault::Memory),
    }
}

/// The refusal of a file by its name.
fn refused(alloc: Global, code: Code, name: &str) -> LoadFault
    ensures { IsRefusedAs (record { code = code; file = name.now; line = 0; name = name.now }) result }
{
    match refusal(alloc, code, name, name.as_bytes()) {
        Ok(refusal) => LoadFault::Refused(refusal),
        Err(Memory) => LoadFault::Memory,
    }
}
