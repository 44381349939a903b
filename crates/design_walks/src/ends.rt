//! Where walks end. The end of each bit is found once: bits that a walk has passed keep their end.
ghost use Rattle.std.specs.Prelude.{◌≡◌, ◌<◌, length};
ghost use Rattle.design_walks.specs.Ends.{AreEnds, EndsAt};

use design_rows::Design;

/// The last bit of the walk from a bit. All bits that were passed keep it.
pub fn end_of(design: &Design, ends: &mut [Option<u32>], n: u32) -> u32
    requires ends { AreEnds design.now.bits ends.old }
    requires within { n < length design.now.bits }
    ensures last { EndsAt design.now.bits n result }
    ensures ends { AreEnds design.now.bits ends.new }
{
    let last = last_of(design, ends, n);
    keep_end(design, ends, n, last);
    last
}

/// The last bit of the walk from a bit, which goes on as far as no end is known.
fn last_of(design: &Design, ends: &[Option<u32>], n: u32) -> u32
    requires ends { AreEnds design.now.bits ends.now }
    requires within { n < length design.now.bits }
    ensures { EndsAt design.now.bits n result }
{
    design.sound();
    let mut at = n;
    // A walk passes no bit twice.
    for _ in 0..ends.len() {
        if let Some(last) = ends[at as usize] {
            return last;
        }
        match design.next(at) {
            Some(next) => at = next,
            None => return at,
        }
    }
    unreachable!()
}

/// Keeps the last bit of the walk from a bit at each bit that it passes, up to one that has it.
fn keep_end(design: &Design, ends: &mut [Option<u32>], n: u32, last: u32)
    requires ends { AreEnds design.now.bits ends.old }
    requires within { n < length design.now.bits }
    requires last { EndsAt design.now.bits n last }
    ensures { AreEnds design.now.bits ends.new }
{
    design.sound();
    let mut at = n;
    for _ in 0..ends.len() {
        if ends[at as usize].is_some() {
            return;
        }
        ends[at as usize] = Some(last);
        match design.next(at) {
            Some(next) => at = next,
            None => return,
        }
    }
}
