//! Tests of what no contract of scripts of events says: that a line of each form is read, and a run
//! succeeds, if there is memory, what stands when memory is refused, and that the definitions mean
//! the forms. Scripts whose texts were worked out by hand are tried by the program
//! (`scripts/model/play-rows`). And of `loop`, that a run over TCP is good, and how it ends where the
//! network or the writer fails.
//!
//! Uses wire_play and command_run_tests. Read first: `forms`, then `kept`, and of `loop` `calls`.
#![tactic(auto)]

#[cfg(test)]
mod calls;
#[cfg(test)]
mod forms;
#[cfg(test)]
mod kept;
#[cfg(test)]
mod line_refusals;
#[cfg(test)]
mod networks;
#[cfg(test)]
mod other_forms;
#[cfg(test)]
mod play_refusals;
#[cfg(test)]
mod readings;
#[cfg(test)]
mod runs;
