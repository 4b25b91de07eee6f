//! The examples of the docs, copied word for word. `docs/check-quotes` compares them.
mod blocks;
mod calls;
mod colors;
mod columns;
mod edits;
mod library;
mod parts;
mod ranges;
mod restyle;
mod safe;
mod scanner;
mod slices;
mod styles;
