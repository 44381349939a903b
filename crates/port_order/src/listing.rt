//! The numbers of all ports and pins, as they come.
ghost use Rattle.std.specs.Prelude.{◌≡◌, ◌++◌, length, IfOk, OnOk};
ghost use Rattle.pw_defs.specs.declared.design.Body.TheVariants.{Module as ModuleBody, Cell as CellBody, Model as ModelBody};
ghost use Rattle.design_defs.specs.Ports.{ports_among};
ghost use Rattle.list_defs.specs.Members.{IsIn};
ghost use Rattle.port_order.specs.Listings.{all_numbers, count_of, numbered};
ghost use Rattle.port_order.specs.PortOrders.{IsPort};
ghost use Rattle.port_order.specs.declared.keys.PortNumber.{PortNumber as AnyPort};

use crate::keys::PortNumber;
use pw_defs::{Body, Cells, List, Model, Module};
use std::alloc::{AllocError, Global};

/// The numbers of all ports of all modules, cells and models.
pub fn all_ports(
    alloc: Global,
    modules: &List<Module>,
    cells: &Cells,
    models: &List<Model>,
) -> Result<Vec<PortNumber>, AllocError>
    ensures each { IfOk result (λ numbers. (n : AnyPort) → IsIn n numbers.items → IsPort modules.now cells.now models.now n) }
    ensures all { IfOk result (λ numbers. (n : AnyPort) → IsPort modules.now cells.now models.now n → IsIn n numbers.items) }
{
    let mut numbers = Vec::new(alloc);
    of_modules(modules, cells, models, &mut numbers)?;
    of_cells(modules, cells, models, &mut numbers)?;
    of_models(modules, cells, models, &mut numbers)?;
    numbers.shrink_to_fit();
    Ok(numbers)
}

fn of_modules(
    modules: &List<Module>,
    cells: &Cells,
    models: &List<Model>,
    numbers: &mut Vec<PortNumber>,
) -> Result<(), AllocError>
    ensures { OnOk result (numbers.new.items ≡ numbers.old.items ++ all_numbers modules.now cells.now models.now ModuleBody (length modules.now)) }
{
    for n in 0..modules.len() {
        of_body(modules, cells, models, Body::Module(n), numbers)?;
    }
    Ok(())
}

fn of_cells(
    modules: &List<Module>,
    cells: &Cells,
    models: &List<Model>,
    numbers: &mut Vec<PortNumber>,
) -> Result<(), AllocError>
    ensures { OnOk result (numbers.new.items ≡ numbers.old.items ++ all_numbers modules.now cells.now models.now CellBody (length cells.now.cells)) }
{
    for n in 0..cells.cells.len() {
        of_body(modules, cells, models, Body::Cell(n), numbers)?;
    }
    Ok(())
}

fn of_models(
    modules: &List<Module>,
    cells: &Cells,
    models: &List<Model>,
    numbers: &mut Vec<PortNumber>,
) -> Result<(), AllocError>
    ensures { OnOk result (numbers.new.items ≡ numbers.old.items ++ all_numbers modules.now cells.now models.now ModelBody (length models.now)) }
{
    for n in 0..models.len() {
        of_body(modules, cells, models, Body::Model(n), numbers)?;
    }
    Ok(())
}

/// Appends the numbers of all ports of a body.
fn of_body(
    modules: &List<Module>,
    cells: &Cells,
    models: &List<Model>,
    body: Body,
    numbers: &mut Vec<PortNumber>,
) -> Result<(), AllocError>
    ensures { OnOk result (numbers.new.items ≡ numbers.old.items ++ numbered body (count_of (ports_among modules.now cells.now models.now body))) }
{
    for port in 0..len_ports(modules, cells, models, body) {
        numbers.push(PortNumber { body, port })?;
    }
    Ok(())
}

/// How many ports a body has.
fn len_ports(modules: &List<Module>, cells: &Cells, models: &List<Model>, body: Body) -> u32
    ensures { result ≡ count_of (ports_among modules.now cells.now models.now body) }
{
    match body {
        Body::Module(n) => match modules.get(n) {
            Some(module) => module.ports.len(),
            None => 0,
        },
        Body::Cell(n) => match cells.cells.get(n) {
            Some(cell) => cell.pins.len(),
            None => 0,
        },
        Body::Model(n) => match models.get(n) {
            Some(model) => model.ports.len(),
            None => 0,
        },
    }
}
