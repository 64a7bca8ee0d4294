//! Values in blocks over far objects in memory.

mod beside;
mod page;
mod playing;
mod scenes;
