//! Small jobs that were worked out by hand: the texts of their files, and the cells, modules, designs, commands, intents
//! and reports that these mean. It has no code. The definition crates prove facts over them, so that no definition is empty.
#![tactic(auto)]
