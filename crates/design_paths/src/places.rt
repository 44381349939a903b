//! Which instances stand below which: what an instance is inside has the smaller number, so going up from it ends.
ghost use Rattle.std.specs.Prelude.{◌≡◌, ◌<◌, ◌↔◌, IsTrue, length};
ghost use Rattle.design_defs.specs.Alike.{IsAtOrBelow};

use design_rows::Design;

/// Whether an instance is this one, or stands below it at any depth.
pub fn is_at_or_below(design: &Design, top: u32, n: u32) -> bool
    requires { n < length design.now.insts }
    ensures { IsTrue result ↔ IsAtOrBelow design.now top n }
{
    design.sound();
    let mut at = n;
    while at > top {
        match design.parent(at) {
            Some(parent) => at = parent,
            None => return false,
        }
    }
    at == top
}
