//! From the texts of a library, a netlist and a script to the design and the intent that they mean.
ghost use Rattle.std.specs.Prelude.{◌≡◌, IfOk, MatchOption, map};
ghost use Rattle.line_forms.specs.LibraryForm.{IsLibrary, library_text};
ghost use Rattle.line_forms.specs.NetlistForm.{AreModules, netlist_text};
ghost use Rattle.line_forms.specs.ScriptForm.{AreCommands, script_text};
ghost use Rattle.upf_sign.specs.Loaded.{IsRead, IsDesignRead, HasIntent, IsLoaded};

use form_design::{FormDesign, design_of};
use form_intent::intent_of;
use line_forms::{
    CommandLine, Library, ModuleLines, ReadFault, read_library, read_netlist, read_script,
};
use pw_defs::{Design, Instance, Intent, List, Memory};
use std::alloc::Global;

/// A design with its intent.
#[derive(Drop)]
pub(crate) struct Loaded {
    pub design: Design,
    pub intent: Intent,
}

fn library_of(alloc: Global, text: &[u8]) -> Result<Option<Library>, Memory>
    ensures { IfOk result (λ library. IsRead IsLibrary library_text text.now library) }
{
    match read_library(alloc, text) {
        Ok(library) => Ok(Some(library)),
        Err(ReadFault::OtherForm) => Ok(None),
        Err(ReadFault::Memory) => Err(Memory),
    }
}

fn modules_of(alloc: Global, text: &[u8]) -> Result<Option<List<ModuleLines>>, Memory>
    ensures { IfOk result (λ modules. IsRead AreModules netlist_text text.now modules) }
{
    match read_netlist(alloc, text) {
        Ok(modules) => Ok(Some(modules)),
        Err(ReadFault::OtherForm) => Ok(None),
        Err(ReadFault::Memory) => Err(Memory),
    }
}

fn commands_of(alloc: Global, text: &[u8]) -> Result<Option<List<CommandLine>>, Memory>
    ensures { IfOk result (λ commands. IsRead AreCommands script_text text.now commands) }
{
    match read_script(alloc, text) {
        Ok(commands) => Ok(Some(commands)),
        Err(ReadFault::OtherForm) => Ok(None),
        Err(ReadFault::Memory) => Err(Memory),
    }
}

/// The design of a library and a netlist, which is `None` where they aren't of the form.
fn read_design(
    alloc: Global,
    library: &[u8],
    netlist: &[u8],
    top: &[u8],
) -> Result<Option<FormDesign>, Memory>
    ensures { IfOk result (λ design. IsDesignRead library.now netlist.now top.now design) }
{
    let Some(library) = library_of(alloc, library)? else {
        return Ok(None);
    };
    match modules_of(alloc, netlist)? {
        Some(modules) => design_of(alloc, &library.cells, &modules, top),
        None => Ok(None),
    }
}

/// The parent of each instance.
fn parents_of(alloc: Global, insts: &[Instance]) -> Result<Vec<Option<u32>>, Memory>
    ensures { IfOk result (λ parents. parents.items ≡ map (λ inst. inst.parent) insts.now) }
{
    let mut parents = Vec::new(alloc);
    for inst in insts {
        parents.push(inst.parent)?;
    }
    Ok(parents)
}

/// The intent of a script on a design, which is `None` where it isn't of the form.
fn read_intent(alloc: Global, script: &[u8], form: &FormDesign) -> Result<Option<Intent>, Memory>
    ensures { IfOk result (λ intent. MatchOption intent
        ((i : Intent) → HasIntent script.now form.now.design form.now.instances i → ⊥)
        (λ i. HasIntent script.now form.now.design form.now.instances i)) }
{
    let Some(commands) = commands_of(alloc, script)? else {
        return Ok(None);
    };
    let parents = parents_of(alloc, form.design.insts.as_slice())?;
    intent_of(
        alloc,
        commands.as_slice(),
        &form.instances,
        parents.as_slice(),
    )
}

/// What the files mean, which is `None` where they aren't of the form.
pub(crate) fn load(
    alloc: Global,
    library: &[u8],
    netlist: &[u8],
    script: &[u8],
    top: &[u8],
) -> Result<Option<Loaded>, Memory>
    ensures { IfOk result (λ loaded. MatchOption loaded
        ((d : Design) (i : Intent) → IsLoaded library.now netlist.now script.now top.now d i → ⊥)
        (λ l. IsLoaded library.now netlist.now script.now top.now l.design l.intent)) }
{
    match read_design(alloc, library, netlist, top)? {
        Some(form) => match read_intent(alloc, script, &form)? {
            Some(intent) => Ok(Some(Loaded {
                design: form.design,
                intent,
            })),
            None => Ok(None),
        },
        None => Ok(None),
    }
}
