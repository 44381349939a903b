//! Lines with several owners.
ghost use Rattle.std.specs.Prelude.{◌≡◌, ◌≤◌, ◌↔◌, [], IsTrue, IfOk, length, slice_range};

use pw_defs::{Line, List, Memory};
use std::alloc::Global;
use std::marker::Model;
use std::rc::Rc;

/// Lines of a text: all of them, or a part. The text stays in memory as long as there is some part of it.
#[derive(Drop)]
pub struct Lines {
    text: Rc<List<Line>>,
    from: u32,
    to: u32,
}

impl Model for Lines {
    ghost use Rattle.std.specs.Prelude.{List, ◌≤◌, length, slice_range};
    ghost use Rattle.pw_defs.specs.declared.script.Line.{Line};

    ghost Value = { List Line };

    ghost view = { λ lines. slice_range lines.text.value lines.from lines.to };

    ghost invariant = { λ lines. (lines.from ≤ lines.to) × (lines.to ≤ length lines.text.value) × (lines.to ≤ 4294967295) };
}

impl Lines {
    /// The lines of a text.
    pub fn new(alloc: Global, text: List<Line>) -> Result<Lines, Memory>
        ensures { IfOk result (λ lines. lines ≡ text) }
    {
        let to = text.len();
        let text = Rc::new(alloc, text)?;
        Ok(Lines { text, from: 0, to })
    }

    pub fn as_slice(&self) -> &[Line]
        ensures lines { result.now ≡ self.now }
        ensures limit { length result.now ≤ 4294967295 }
    {
        let text = self.text.as_ref().as_slice();
        &text[self.from as usize..self.to as usize]
    }

    pub fn len(&self) -> u32
        ensures { result ≡ length self.now }
    {
        self.to - self.from
    }

    pub fn is_empty(&self) -> bool
        ensures { IsTrue result ↔ (self.now ≡ []) }
    {
        self.len() == 0
    }

    /// The same lines from one place up to another, which are not copied.
    pub fn part(&self, from: u32, to: u32) -> Result<Lines, Memory>
        requires order { from ≤ to }
        requires within { to ≤ length self.now }
        ensures { IfOk result (λ lines. lines ≡ slice_range self.now from to) }
    {
        let text = self.text.clone()?;
        Ok(Lines {
            text,
            from: self.from + from,
            to: self.from + to,
        })
    }

    /// The same lines, which are not copied.
    pub fn share(&self) -> Result<Lines, Memory>
        ensures { IfOk result (λ lines. lines ≡ self.now) }
    {
        let text = self.text.clone()?;
        Ok(Lines {
            text,
            from: self.from,
            to: self.to,
        })
    }
}
