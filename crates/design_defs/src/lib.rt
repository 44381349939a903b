//! Definitions of an elaborated design: the hierarchy that modules, cells and models make below a top, its bits and the
//! links between them, what can be wrong with it, when a design is sound, what names stand for, and walks. No code.
#![tactic(auto)]
