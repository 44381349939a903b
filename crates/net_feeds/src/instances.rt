//! What instances are.
ghost use Rattle.std.specs.Prelude.{◌≡◌, Some, IfOk, option_map, slice_get};
ghost use Rattle.pw_defs.specs.declared.design.Body.TheVariants.{Module as ModuleBody};
ghost use Rattle.net_instances.specs.declared.numbering.InstanceRow.{InstanceRow as Instance};

use net_instances::Instances;
use pw_defs::{Body, Memory};

/// The number of the module of an instance.
pub(crate) fn module_of(instances: &Instances, inst: u32) -> Result<u32, Memory>
    ensures { IfOk result (λ number. option_map (λ (row : Instance). row.body) (slice_get instances.now.rows inst) ≡ Some (ModuleBody number)) }
{
    let row = instances.rows.get(inst).ok_or(Memory)?;
    match row.body {
        Body::Module(number) => Ok(number),
        Body::Cell(_) | Body::Model(_) => Err(Memory),
    }
}
