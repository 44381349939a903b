//! What runs single lines.

use crate::frames::{Frame, Openings};
use pw_defs::{LoadFault, Memory, Name, Refusal};
use script_lines::Block;

/// Why a line isn't run.
#[derive(Drop)]
pub enum StepFault {
    Refused(Refusal),
    Memory,
}

impl From<Memory> for StepFault {
    ghost use Rattle.std.specs.Prelude.{◌≡◌};
    ghost use Rattle.script_runs.specs.declared.steps.StepFault.TheVariants.{Memory as OutOfMemory};

    ghost from_gives = { λ _ e. e ≡ OutOfMemory };

    fn from(_error: Memory) -> StepFault {
        StepFault::Memory
    }
}

impl From<StepFault> for LoadFault {
    ghost use Rattle.std.specs.Prelude.{◌≡◌};
    ghost use Rattle.script_runs.specs.Steps.{load_fault};

    ghost from_gives = { λ fault e. e ≡ load_fault fault };

    fn from(fault: StepFault) -> LoadFault {
        match fault {
            StepFault::Refused(refusal) => LoadFault::Refused(refusal),
            StepFault::Memory => LoadFault::Memory,
        }
    }
}

/// What runs the lines of scripts, one by one. It has a design, and the world that the lines so far have made.
pub trait LineSteps {
    ghost use Rattle.std.specs.Prelude.{◌≡◌, List, IfOk, OnOk, IfErr};
    ghost use Rattle.pw_defs.specs.declared.design.Design.{Design};
    ghost use Rattle.script_defs.specs.World.{World};
    ghost use Rattle.script_defs.specs.Scopes.{is_modelled};
    ghost use Rattle.script_defs.specs.ReadStatements.{readers};
    ghost use Rattle.script_runs.specs.Steps.{IsRun, StopsLine, IsMapped, StopsMap};
    ghost use Rattle.script_runs.specs.Views.{opened, opening_at};

    ghost design: { Self → Design };

    ghost world: { Self → World };

    /// Whether a model stands for the instance at this path, so that none of its lines are run.
    fn is_modelled(&self, path: &[u8]) -> bool
        ensures { result ≡ is_modelled (design self.now) path.now };

    /// Runs a line of a frame. The answer is what frames it opens.
    ///
    /// After an error the frame and the world aren't used again.
    fn run(&mut self, frame: &mut Frame, block: &Block<'_>) -> Result<Option<Openings>, StepFault>
        ensures same { design self.new ≡ design self.old }
        ensures ran { IfOk result (λ openings.
            IsRun readers (design self.old) frame.old (world self.old) block.now frame.new (world self.new) (opened openings)) }
        ensures stop { IfErr result (StopsLine readers (design self.old) frame.old (world self.old) block.now) };

    /// Carries out the map of supplies behind a frame that a line of this frame opened at an instance.
    ///
    /// After an error the world isn't used again.
    fn map_supplies(
        &mut self,
        frame: &Frame,
        openings: &Openings,
        home: &Name,
    ) -> Result<(), StepFault>
        ensures same { design self.new ≡ design self.old }
        ensures mapped { OnOk result (IsMapped (design self.old) frame.now (world self.old) (opening_at openings.now home.now) (world self.new)) }
        ensures stop { IfErr result (StopsMap (design self.old) frame.now (world self.old) (opening_at openings.now home.now)) };
}
