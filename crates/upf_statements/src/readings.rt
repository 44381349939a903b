//! What stands in a statement.
ghost use Rattle.std.specs.Prelude.{◌≡◌, ◌++◌, IfOk, OnOk, map, option_map, option_to_list};
ghost use Rattle.script_defs.specs.Statements.{names_in, pairs_in, truth_in, volts_in, values_in, described_in, clauses_of, is_given, is_true, name_of, names_of, pairs_of, subject_of};
ghost use Rattle.upf_statements.specs.Views.{option_view, pairs_view, texts_view};

use crate::statements::{Clause, Parts, StateOption, Statement};
use pw_defs::{Bytes, Memory, Value};
use std::alloc::Global;
use std::slice::from_ref;

impl Clause {
    /// The names that the value lists.
    pub fn names(&self) -> &[Bytes]
        ensures { result.now ≡ names_in self.now.parts }
    {
        match &self.parts {
            Parts::Word(word) => from_ref(word),
            Parts::Names(names) => names.as_slice(),
            Parts::Pair(pair) => from_ref(&pair.1),
            _ => &[],
        }
    }

    /// The pairs that the value lists.
    pub fn pairs(&self) -> &[(Bytes, Bytes)]
        ensures { result.now ≡ pairs_in self.now.parts }
    {
        match &self.parts {
            Parts::Pair(pair) => from_ref(pair),
            Parts::Pairs(pairs) => pairs.as_slice(),
            _ => &[],
        }
    }

    /// Whether the value says yes, as a flag does.
    pub fn truth(&self) -> bool
        ensures { result ≡ truth_in self.now.parts }
    {
        match &self.parts {
            Parts::Flag => true,
            Parts::Truth(says) => *says,
            _ => false,
        }
    }

    /// The microvolts that the value gives.
    pub fn volts(&self) -> Option<u32>
        ensures { option_to_list result ≡ volts_in self.now.parts }
    {
        match &self.parts {
            Parts::Volts(microvolts) => Some(*microvolts),
            _ => None,
        }
    }

    /// The state of a supply that the value gives, with the supply's value in it.
    pub fn state_value(&self) -> Option<(&[u8], Value)>
        ensures { option_to_list (option_map (λ v. (v.0.now, v.1)) result) ≡ values_in self.now.parts }
    {
        match &self.parts {
            Parts::Valued(name, value) => Some((name.as_slice(), *value)),
            _ => None,
        }
    }

    /// The state of an object that the value describes, with its options.
    pub fn described(&self) -> Option<(&[u8], &[StateOption])>
        ensures { option_to_list (option_map (λ d. (d.0.now, map option_view d.1.now)) result) ≡ described_in self.now.parts }
    {
        match &self.parts {
            Parts::Described(name, options) => Some((name.as_slice(), options.as_slice())),
            _ => None,
        }
    }
}

/// Adds names.
fn put_names<'a>(more: &'a [Bytes], names: &mut Vec<&'a [u8]>) -> Result<(), Memory>
    ensures { OnOk result (texts_view names.new.items ≡ texts_view names.old.items ++ more.now) }
{
    for name in more {
        names.push(name.as_slice())?;
    }
    Ok(())
}

/// Adds pairs.
fn put_pairs<'a>(
    more: &'a [(Bytes, Bytes)],
    pairs: &mut Vec<(&'a [u8], &'a [u8])>,
) -> Result<(), Memory>
    ensures { OnOk result (pairs_view pairs.new.items ≡ pairs_view pairs.old.items ++ more.now) }
{
    for (first, second) in more {
        pairs.push((first.as_slice(), second.as_slice()))?;
    }
    Ok(())
}

impl Statement {
    /// Whether an option is given.
    pub fn is_given(&self, option: &[u8]) -> bool
        ensures { result ≡ is_given option.now self.now.clauses }
    {
        for clause in self.clauses.as_slice() {
            if option == clause.option.as_slice() {
                return true;
            }
        }
        false
    }

    /// Whether a flag or a truth is given and true.
    pub fn is_true(&self, option: &[u8]) -> bool
        ensures { result ≡ is_true option.now self.now.clauses }
    {
        for clause in self.clauses.as_slice() {
            if option == clause.option.as_slice() && clause.truth() {
                return true;
            }
        }
        false
    }

    /// The clauses of an option, in order.
    pub fn clauses_of(&self, alloc: Global, option: &[u8]) -> Result<Vec<&Clause>, Memory>
        ensures { IfOk result (λ clauses. map (λ c. c.now) clauses.items ≡ clauses_of option.now self.now.clauses) }
    {
        let mut clauses = Vec::new(alloc);
        for clause in self.clauses.as_slice() {
            if option == clause.option.as_slice() {
                clauses.push(clause)?;
            }
        }
        Ok(clauses)
    }

    /// The name that an option gives, the first where it gives more.
    pub fn name_of(&self, option: &[u8]) -> Option<&[u8]>
        ensures { option_map (λ name. name.now) result ≡ name_of option.now self.now.clauses }
    {
        for clause in self.clauses.as_slice() {
            if option == clause.option.as_slice() {
                if let [name, ..] = clause.names() {
                    return Some(name.as_slice());
                }
            }
        }
        None
    }

    /// The names that an option lists, over all its clauses.
    pub fn names_of(&self, alloc: Global, option: &[u8]) -> Result<Vec<&[u8]>, Memory>
        ensures { IfOk result (λ names. texts_view names.items ≡ names_of option.now self.now.clauses) }
    {
        let mut names = Vec::new(alloc);
        for clause in self.clauses.as_slice() {
            if option == clause.option.as_slice() {
                put_names(clause.names(), &mut names)?;
            }
        }
        Ok(names)
    }

    /// The pairs that an option lists, over all its clauses.
    pub fn pairs_of(&self, alloc: Global, option: &[u8]) -> Result<Vec<(&[u8], &[u8])>, Memory>
        ensures { IfOk result (λ pairs. pairs_view pairs.items ≡ pairs_of option.now self.now.clauses) }
    {
        let mut pairs = Vec::new(alloc);
        for clause in self.clauses.as_slice() {
            if option == clause.option.as_slice() {
                put_pairs(clause.pairs(), &mut pairs)?;
            }
        }
        Ok(pairs)
    }

    /// The command's first own word, which for a command that makes an object is its name.
    pub fn subject(&self) -> &[u8]
        ensures { result.now ≡ subject_of self.now }
    {
        match self.args.as_slice() {
            [first, ..] => first.as_slice(),
            [] => &[],
        }
    }
}
