// The tests of crate `logger`, apart from it: a crate's tests are proved as one program with the whole crate.
#![tactic(auto)]

#[cfg(test)]
mod tests;
