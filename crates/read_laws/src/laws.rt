//! What holds of cells and modules that were read.
ghost use Rattle.read_laws.specs.Laws.{LibrariesGiveCells, NetlistsGiveFullNames, NetlistsGiveModules, ReadSourcesFit};

/// A library gives cells, and a netlist modules, of which a design can be made. No name in a module of a netlist is
/// empty. So what libraries and netlists give, one behind the other, fits together below any top.
pub fn what_is_read_fits()
    ensures cells { LibrariesGiveCells }
    ensures modules { NetlistsGiveModules }
    ensures full { NetlistsGiveFullNames }
    ensures sources { ReadSourcesFit }
{}
