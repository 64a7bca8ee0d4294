//! Texts whose lines are split among threads, with what a run of them prints, and gates that hold, order, count and refuse their lines.

mod faults;
mod once;
mod ordered;
mod pieces;
mod refusing;
mod rows;
mod talk;
mod tally;
mod texts;
mod threads;
mod turns;
mod watch;
