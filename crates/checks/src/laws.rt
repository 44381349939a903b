//! A law of reports, for callers' proofs.
ghost use Rattle.checks.specs.Laws.{HasOneReport};

/// There is one report on a design with its intent.
pub fn one_report()
    ensures { HasOneReport }
{
    chains::one_walk();
}
