//! The modules of a netlist as text.
ghost use Rattle.std.specs.Prelude.{◌<◌, length};
ghost use Rattle.module_rows.specs.Reads.{module_at};

use crate::libraries::arrow;
use crate::texts::{put_name, refused, text_of};
use crate::words::{answer_text, unknown};
use module_rows::{ExprHead, Modules};
use net_modules::read_modules;
use pw_defs::NetFault;
use std::alloc::{AllocError, Global};

/// The modules of a netlist, or its first fault.
pub fn netlist_text(alloc: Global, words: &[&str]) -> Result<String, AllocError> {
    let [word] = words else {
        return unknown(alloc);
    };
    let Some(text) = text_of(alloc, *word)? else {
        return unknown(alloc);
    };
    match read_modules(alloc, text.as_slice()) {
        Ok(modules) => modules_text(alloc, &modules),
        Err(fault) => fault_text(alloc, &fault, None),
    }
}

/// A fault of a netlist's text by its code: the line, the name, and the number of the netlist where there is one.
pub fn fault_text(
    alloc: Global,
    fault: &NetFault,
    number: Option<u32>,
) -> Result<String, AllocError> {
    match fault {
        NetFault::N1(at) => refused(alloc, "N1", at, number),
        NetFault::N2(at) => refused(alloc, "N2", at, number),
        NetFault::N3(at) => refused(alloc, "N3", at, number),
        NetFault::N4(at) => refused(alloc, "N4", at, number),
        NetFault::Memory => answer_text(alloc, true, "memory"),
    }
}

/// How many modules there are, and each of them.
fn modules_text(alloc: Global, modules: &Modules) -> Result<String, AllocError> {
    let count = modules.len();
    let mut text = format!(in alloc; "ok {count}")?;
    for holder in 0..count {
        text.push_str(" ")?;
        put_module(alloc, &mut text, modules, holder)?;
    }
    Ok(text)
}

/// Appends a module: its name, line and ports, then its wires, assignments and instances.
fn put_module(
    alloc: Global,
    out: &mut String,
    modules: &Modules,
    holder: u32,
) -> Result<(), AllocError>
    requires { holder < length modules.now.modules }
{
    let head = modules.module(holder);
    let line = head.line;
    put_symbol(alloc, out, modules, head.name)?;
    out.push_str(format!(in alloc; "@{line}(")?.as_str())?;
    for number in 0..head.ports {
        let port = modules.port(holder, number);
        if number > 0 {
            out.push_str(",")?;
        }
        put_symbol(alloc, out, modules, port.name)?;
        out.push_str(arrow(port.dir))?;
        put_range(alloc, out, port.range)?;
    }
    out.push_str(")")?;
    for number in 0..head.nets {
        let net = modules.net(holder, number);
        out.push_str("wire:")?;
        put_symbol(alloc, out, modules, net.name)?;
        put_range(alloc, out, net.range)?;
        out.push_str(";")?;
    }
    put_lines(alloc, out, modules, holder)
}

/// Appends the assignments and instances of a module.
fn put_lines(
    alloc: Global,
    out: &mut String,
    modules: &Modules,
    holder: u32,
) -> Result<(), AllocError>
    requires { holder < length modules.now.modules }
{
    for number in 0..modules.module(holder).assigns {
        let assign = modules.assign(holder, number);
        let line = assign.line;
        out.push_str("assign:")?;
        put_expr(alloc, out, modules, assign.left)?;
        out.push_str("=")?;
        put_expr(alloc, out, modules, assign.right)?;
        out.push_str(format!(in alloc; "@{line};")?.as_str())?;
    }
    for number in 0..modules.module(holder).insts {
        put_inst(alloc, out, modules, holder, number)?;
    }
    Ok(())
}

/// Appends an instance of a module.
fn put_inst(
    alloc: Global,
    out: &mut String,
    modules: &Modules,
    holder: u32,
    number: u32,
) -> Result<(), AllocError>
    requires holder { holder < length modules.now.modules }
    requires inst { number < length (module_at modules.now holder).insts }
{
    let inst = modules.inst(holder, number);
    let line = inst.line;
    put_symbol(alloc, out, modules, inst.kind)?;
    out.push_str(":")?;
    put_symbol(alloc, out, modules, inst.name)?;
    out.push_str("(")?;
    for place in 0..inst.conns {
        let conn = modules.conn(holder, number, place);
        out.push_str(if place > 0 { ",." } else { "." })?;
        put_symbol(alloc, out, modules, conn.port)?;
        out.push_str("(")?;
        if let Some(expr) = conn.expr {
            put_expr(alloc, out, modules, expr)?;
        }
        out.push_str(")")?;
    }
    out.push_str(format!(in alloc; ")@{line};")?.as_str())
}

/// Appends the name of a symbol.
fn put_symbol(
    alloc: Global,
    out: &mut String,
    modules: &Modules,
    symbol: u32,
) -> Result<(), AllocError> {
    if symbol >= modules.symbols() {
        return Ok(());
    }
    put_name(alloc, out, modules.spelling(symbol))
}

/// Appends the range of a vector.
fn put_range(alloc: Global, out: &mut String, range: Option<(u32, u32)>) -> Result<(), AllocError> {
    match range {
        Some((left, right)) => out.push_str(format!(in alloc; "[{left}:{right}]")?.as_str()),
        None => Ok(()),
    }
}

/// What is still to be appended of an expression.
#[derive(Clone, Copy)]
enum Pending {
    Expr(u32),
    Mark(&'static str),
}

/// Appends an expression. The parts of a concatenation stand before it, the last one nearest.
fn put_expr(
    alloc: Global,
    out: &mut String,
    modules: &Modules,
    expr: u32,
) -> Result<(), AllocError> {
    let mut pending = Vec::new(alloc);
    pending.push(Pending::Expr(expr))?;
    for _ in 0..u64::MAX {
        match pending.pop() {
            Some(Pending::Mark(mark)) => out.push_str(mark)?,
            Some(Pending::Expr(number)) => put_one(alloc, out, &mut pending, modules, number)?,
            None => return Ok(()),
        }
    }
    Ok(())
}

/// Appends a name or a constant, or begins a concatenation.
fn put_one(
    alloc: Global,
    out: &mut String,
    pending: &mut Vec<Pending>,
    modules: &Modules,
    number: u32,
) -> Result<(), AllocError> {
    if number >= modules.exprs() {
        return Ok(());
    }
    match modules.expr(number) {
        ExprHead::Whole(name) => put_symbol(alloc, out, modules, name),
        ExprHead::Bit(name, index) => {
            put_symbol(alloc, out, modules, name)?;
            out.push_str(format!(in alloc; "[{index}]")?.as_str())
        }
        ExprHead::Part(name, left, right) => {
            put_symbol(alloc, out, modules, name)?;
            put_range(alloc, out, Some((left, right)))
        }
        ExprHead::Const(width) => out.push_str(format!(in alloc; "{width}'")?.as_str()),
        ExprHead::Join => {
            out.push_str("{")?;
            pending.push(Pending::Mark("}"))?;
            push_parts(pending, modules, number)
        }
    }
}

/// The parts of a concatenation are still to be appended, the first one next.
fn push_parts(
    pending: &mut Vec<Pending>,
    modules: &Modules,
    number: u32,
) -> Result<(), AllocError> {
    if number >= modules.exprs() {
        return Ok(());
    }
    let first = modules.first_leaf(number);
    let mut end = number;
    for _ in 0..number {
        if end <= first || end > modules.exprs() {
            return Ok(());
        }
        if end < number {
            pending.push(Pending::Mark(","))?;
        }
        pending.push(Pending::Expr(end - 1))?;
        end = modules.first_leaf(end - 1);
    }
    Ok(())
}
