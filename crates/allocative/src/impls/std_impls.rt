//! What the types of the language and of `std` show.
mod cells;
mod choice;
mod collections;
mod pointer;
mod simple;
mod tuple;
