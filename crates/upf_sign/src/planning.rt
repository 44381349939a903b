//! From the words of a run to the bytes of its report, or to why there is none.
ghost use Rattle.std.specs.Prelude.{◌≡◌, IfOk, IfErr, IfSome, map, string_bytes};
ghost use Rattle.upf_sign.specs.declared.answers.Answer.TheVariants.{Report};
ghost use Rattle.upf_sign.specs.Jobs.{job_in};
ghost use Rattle.upf_sign.specs.Planning.{Answers, Stops, stop_of};
ghost use Rattle.upf_sign.specs.Runs.{Deserve};
ghost use Rattle.upf_sign.specs.Words.{HasJob};

use crate::answers::{Answer, sign_off};
use crate::fetching::{Texts, fetch_texts};
use crate::refusals::refusal;
use crate::words::{JobWords, job_of};
use pw_defs::{Bytes, Code, LoadFault, Memory, Refusal};
use pw_outer::Shelf;
use std::alloc::Global;

/// The text of a report, which is clean where it has no findings.
#[derive(Drop)]
pub(crate) struct Finished {
    pub text: Bytes,
    pub clean: bool,
}

/// Why there is no report.
#[derive(Drop)]
pub(crate) enum Stop {
    Usage,
    Refused(Refusal),
    Bound,
    Outside,
    Memory,
}

impl From<Memory> for Stop {
    ghost use Rattle.std.specs.Prelude.{◌≡◌};
    ghost use Rattle.upf_sign.specs.declared.planning.Stop.TheVariants.{Memory as OutOfMemory};

    ghost from_gives = { λ _ stop. stop ≡ OutOfMemory };

    fn from(_error: Memory) -> Stop {
        Stop::Memory
    }
}

/// The report that the words deserve over the files of a shelf.
pub(crate) fn plan<S: Shelf>(
    alloc: Global,
    words: &[String],
    shelf: &mut S,
) -> Result<Finished, Stop>
    ensures job { IfOk result (λ _. HasJob (map string_bytes words.now)) }
    ensures report { IfOk result (λ finished.
        IfSome (S.holds shelf.old) (λ files. Deserve (map string_bytes words.now) files (Report finished.text finished.clean))) }
    ensures stop { IfErr result (λ stop.
        Stops (map string_bytes words.now) (S.holds shelf.old) (S.counts shelf.old) (S.counts shelf.new) stop) }
{
    match job_of(words) {
        Some(job) => match fetch_texts(alloc, shelf, &job) {
            Ok(texts) => answer(alloc, &job, &texts),
            Err(fault) => Err(stop_of(fault)),
        },
        None => Err(Stop::Usage),
    }
}

/// Why there is no report, where a file has no text.
fn stop_of(fault: LoadFault) -> Stop
    ensures { result ≡ stop_of fault }
{
    match fault {
        LoadFault::Refused(refusal) => Stop::Refused(refusal),
        LoadFault::Outside => Stop::Outside,
        LoadFault::Memory => Stop::Memory,
    }
}

/// The report on the texts of a job.
fn answer(alloc: Global, job: &JobWords<'_>, texts: &Texts) -> Result<Finished, Stop>
    ensures { Answers texts.now (job_in job.now) result }
{
    let answer = sign_off(
        alloc,
        texts.library.as_slice(),
        texts.netlist.as_slice(),
        texts.script.as_slice(),
        job.top.as_bytes(),
    )?;
    match answer {
        Answer::Report { text, clean } => Ok(Finished { text, clean }),
        Answer::OtherForm => Err(Stop::Refused(refusal(alloc, Code::Z1, job.script, b"-")?)),
        Answer::NoLegal => Err(Stop::Refused(refusal(
            alloc,
            Code::U17,
            job.script,
            job.top.as_bytes(),
        )?)),
        Answer::Bound => Err(Stop::Bound),
    }
}
