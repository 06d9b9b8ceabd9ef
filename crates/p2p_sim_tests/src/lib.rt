//! The tests of the program's crates, of the world and of what threads share, through their public names alone. They stand together so
//! that the gate proves each of those crates once.
//!
//! What scripts show stands in `tests` and `examples` at the top, so these have the rest: `command` is of the top call, over sources
//! and sinks that fail and words that name no command; `generated` has what is drawn for a script; `reports` has the texts that no script reaches, `presets` the numbers that a
//! preset stands for, and `worlds` the calls of a world; `threads` is of the other command, and of the objects behind it.
#![tactic(auto)]

#[cfg(test)]
mod command;
#[cfg(test)]
mod generated;
#[cfg(test)]
mod presets;
#[cfg(test)]
mod reports;
#[cfg(test)]
mod threads;
#[cfg(test)]
mod worlds;
