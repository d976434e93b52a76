// What scripts are read as, case by case. A crate of its own, so that `script` is proved once and not again for its tests.
#![tactic(auto)]

#[cfg(test)]
mod tests;
