//! Callers of the library, which `docs/LIBRARY.md` explains, as tests: nothing stands on this crate.
#![tactic(auto)]

#[cfg(test)]
mod tests;
