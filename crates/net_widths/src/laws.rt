//! What holds of lines without faults.
ghost use Rattle.net_widths.specs.WiredLines.{HasWiredLines};

/// Where a design has no fault of types, ports and widths, and each assignment names something on its left side, the lines
/// of all modules that stand in it are wired: connections name ports, and the sides of lines are there and of one width.
pub fn what_is_wired()
    ensures { HasWiredLines }
{}
