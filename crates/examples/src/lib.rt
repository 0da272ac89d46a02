//! Worked examples: some as theorems, by computation from the definitions, and tables of cases as tests.
#![tactic(auto)]

ghost use Rattle.examples.specs.NameExamples.{NameExamples};

/// Names that are read and names that are refused.
pub fn name_examples()
    ensures { NameExamples }
{}

#[cfg(test)]
mod keys_tests;
#[cfg(test)]
mod lists_tests;
#[cfg(test)]
mod names_tests;
#[cfg(test)]
mod script_tests;
