//! The words of a job.
ghost use Rattle.std.specs.Prelude.{◌≡◌, ◌↔◌, IsTrue, MatchOption, map, string_bytes};
ghost use Rattle.upf_sign.specs.Words.{IsJob, IsNoJob, IsValue, HasValues};
ghost use Rattle.upf_sign.specs.Jobs.{job_in, AreOptions};

/// The files of a job, and the module that is checked.
#[derive(Clone, Copy, Drop)]
pub(crate) struct JobWords<'a> {
    pub library: &'a str,
    pub netlist: &'a str,
    pub script: &'a str,
    pub top: &'a str,
}

/// The job that the words are, which is `None` where they are none.
pub(crate) fn job_of(words: &[String]) -> Option<JobWords<'_>>
    ensures { MatchOption result (IsNoJob (map string_bytes words.now)) (λ job. IsJob (map string_bytes words.now) (job_in job)) }
{
    match words {
        [
            command,
            lib,
            library,
            net,
            netlist,
            upf,
            script,
            option,
            top,
        ] => {
            let job = JobWords {
                library: library.as_str(),
                netlist: netlist.as_str(),
                script: script.as_str(),
                top: top.as_str(),
            };
            if are_options(command, lib, net, upf, option) && has_values(&job) {
                Some(job)
            } else {
                None
            }
        }
        _ => None,
    }
}

/// Whether these are the command and the options in their order.
fn are_options(command: &str, lib: &str, net: &str, upf: &str, top: &str) -> bool
    ensures { IsTrue result ↔ AreOptions command.now lib.now net.now upf.now top.now }
{
    command == "flat" && lib == "-lib" && net == "-net" && upf == "-upf" && top == "-top"
}

fn has_values(job: &JobWords<'_>) -> bool
    ensures { IsTrue result ↔ HasValues (job_in job.now) }
{
    is_value(job.library) && is_value(job.netlist) && is_value(job.script) && is_value(job.top)
}

/// Whether a word can be the value of an option: it isn't empty and doesn't begin with a dash.
fn is_value(word: &str) -> bool
    ensures { IsTrue result ↔ IsValue word.now }
{
    match word.as_bytes() {
        [] => false,
        [first, ..] => *first != b'-',
    }
}
