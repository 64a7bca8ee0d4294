//! The tests of far_file, by its public calls alone, and under a heap. They stand apart, so that it is proved once.
#![tactic(auto)]

#[cfg(test)]
mod any;
#[cfg(test)]
mod devices;
#[cfg(test)]
mod files;
#[cfg(test)]
mod heaps;
#[cfg(test)]
mod own;
