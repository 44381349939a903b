//! The lists of values of the roots that each unit sees: what each supply of a power intent may have, unit by unit.
//!
//! `unit_lists` meets `AreUnitLists` of the definitions of supplies. First a plan is gathered from the supplies and units
//! (`specs/Plans`): the roots of supplies as units see them, each found once by a walk up the feeders (`specs/Roots`), what
//! is given on them, and links from the roots of inputs to switches and from the ports inside macros to outside. Then
//! values go along the links (`specs/Flow`), each taken up once at each root, so that rings of switches end, and the
//! lists are written in order (`specs/Lists`).
#![tactic(auto)]

mod flow;
mod lists;
mod plans;
mod roots;
mod views;

pub use lists::unit_lists;
