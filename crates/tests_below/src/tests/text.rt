//! Of far_text. What is refused, and why, tests_far_replay tries on whole runs.

mod example;
mod faults;
mod split;
mod steps;
