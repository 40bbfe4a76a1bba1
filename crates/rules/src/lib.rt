// What is right, as mathematics alone: see specs/, from Machine to Sheets. This crate has definitions and laws, and no code.
#![tactic(auto)]
