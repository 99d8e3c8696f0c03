//! What a report over two databases is: its definitions, that there is one right report, and no code.
#![tactic(auto)]
