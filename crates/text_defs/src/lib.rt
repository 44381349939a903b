//! Definitions of texts: how numbers and voltages are printed, which texts are voltages, the lines, pieces and tokens of a
//! text, grammars over tokens with their laws, and where a text that cannot be read goes wrong. It has no code.
#![tactic(auto)]
