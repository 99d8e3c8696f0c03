//! That each line of JSON is one: laws about the lines of a comparison and of a configuration, and no code.
#![tactic(auto)]
