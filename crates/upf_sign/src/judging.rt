//! The answer on a design with its intent.
ghost use Rattle.std.specs.Prelude.{◌≡◌, IfOk};
ghost use Rattle.design_defs.specs.Walks.{WalksEnd};
ghost use Rattle.form_intent.specs.Sound.{IsSound};
ghost use Rattle.upf_sign.specs.Answers.{IsJudged};

use crate::answers::Answer;
use checks::check;
use pw_defs::{CheckFault, Design, Intent, Memory};
use std::alloc::Global;
use witness_report::report_text;

/// The report on a design with its intent, or why there is none.
pub(crate) fn judge(alloc: Global, design: &Design, intent: &Intent) -> Result<Answer, Memory>
    requires walks { WalksEnd design.now.bits }
    requires sound { IsSound intent.now }
    ensures { IfOk result (λ answer. IsJudged design.now intent.now answer) }
{
    match check(alloc, design, intent) {
        Ok(report) => Ok(Answer::Report {
            text: report_text(alloc, &report)?,
            clean: report.findings.is_empty(),
        }),
        Err(CheckFault::NoLegal) => Ok(Answer::NoLegal),
        Err(CheckFault::Bound) => Ok(Answer::Bound),
        Err(CheckFault::Memory) => Err(Memory),
    }
}
