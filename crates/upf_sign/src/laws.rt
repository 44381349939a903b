//! A law of answers, for callers' proofs.
ghost use Rattle.upf_sign.specs.Laws.{HasOneAnswer};

/// There is one answer to the texts of a library, a netlist and a script.
pub fn one_answer()
    ensures { HasOneAnswer }
{
    checks::one_report();
}
