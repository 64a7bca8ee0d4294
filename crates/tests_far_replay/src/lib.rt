//! The tests of far_replay, by `run` alone. They stand apart, so that it is proved once. They try whether the definition of an
//! output is what was meant: talks, texts that are refused, readers and writers that fail.
#![tactic(auto)]

#[cfg(test)]
mod devices;
#[cfg(test)]
mod differing;
#[cfg(test)]
mod epochs;
#[cfg(test)]
mod limits;
#[cfg(test)]
mod refusing;
#[cfg(test)]
mod rounds;
#[cfg(test)]
mod streaming;
#[cfg(test)]
mod talk;
#[cfg(test)]
mod talks;
#[cfg(test)]
mod texts;
